//! The greatest common divisor, and whether a number is a multiple.

ghost use Rattle.std.specs.Prelude.{◌≡◌, IsTrue, ◌↔◌, unsigned_abs};
ghost use Rattle.std.specs.Int.{w128};
ghost use Rattle.std.specs.Int.RustNames.{FitsSigned};
ghost use Rattle.whole_numbers.specs.Numbers.{Divides, gcd, gcd_nat};

use crate::number::Whole;

/// The greatest common divisor of two words.
#[tactic(auto, using(crate::specs::GcdLaws::gcd_end, crate::specs::GcdLaws::gcd_next))]
fn narrow_divisor(a: u64, b: u64) -> u64
    ensures { result ≡ gcd_nat a b }
{
    if b == 0 { a } else { narrow_divisor(b, a % b) }
}

/// The greatest common divisor, by words as soon as both numbers are.
#[tactic(auto, using(crate::specs::GcdLaws::gcd_end, crate::specs::GcdLaws::gcd_next))]
fn wide_divisor(a: u128, b: u128) -> u128
    ensures { result ≡ gcd_nat a b }
{
    if a <= u64::MAX as u128 && b <= u64::MAX as u128 {
        narrow_divisor(a as u64, b as u64) as u128
    } else if b == 0 {
        a
    } else {
        wide_divisor(b, a % b)
    }
}

impl Whole {
    /// The greatest common divisor, which is never negative, and 0 only for 0 and 0.
    pub fn common_divisor(self, other: Whole) -> Whole
        requires { FitsSigned w128 (gcd self other) }
        ensures { result ≡ gcd self other }
    {
        let divisor = wide_divisor(self.number.unsigned_abs(), other.number.unsigned_abs());
        Whole {
            number: divisor as i128,
        }
    }

    /// It is a multiple of the other; of 0 that is 0 alone.
    #[tactic(auto, using(crate::proofs::GcdLemmas::multiple_test, crate::proofs::GcdLemmas::multiple_of_zero))]
    pub fn is_multiple_of(self, divisor: Whole) -> bool
        ensures { IsTrue result ↔ Divides divisor self }
    {
        if divisor.number == 0 {
            self.number == 0
        } else {
            self.number.unsigned_abs() % divisor.number.unsigned_abs() == 0
        }
    }
}
