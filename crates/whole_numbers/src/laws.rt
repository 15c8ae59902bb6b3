//! Laws of the definitions that the contracts cite.

ghost use Rattle.std.specs.Prelude.{◌≡◌, ℤ, pos, ◌<ℤ◌, ◌↔◌};
ghost use Rattle.std.specs.Int.{int_div_euclid, int_rem_euclid};
ghost use Rattle.whole_numbers.specs.Numbers.{Divides, IsGreatestDivisor, IsFloor, gcd};

/// The greatest common divisor divides both numbers, and what divides both divides it.
pub fn greatest_divisors_are_greatest()
    ensures { (a b : ℤ) → IsGreatestDivisor (gcd a b) a b }
{}

/// The quotient by a number above 0 is rounded down.
pub fn floors_are_rounded_down()
    ensures { (z d : ℤ) → pos 0 <ℤ d → IsFloor (int_div_euclid z d) z d }
{}

/// A number is a multiple of one above 0 exactly where the rest is 0.
pub fn multiples_are_tested()
    ensures { (z d : ℤ) → pos 0 <ℤ d → Divides d z ↔ (int_rem_euclid z d ≡ pos 0) }
{}
