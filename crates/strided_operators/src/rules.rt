//! What operators give at pieces of one operand.

ghost use Rattle.std.specs.Prelude.{◌≡◌, ◌≢◌, ◌≤◌, ◌<◌, ◌^◌, pos, ◌≤ℤ◌, ◌<ℤ◌};
ghost use Rattle.progressions.specs.Images.{quotients as quotients_of};
ghost use Rattle.progressions.specs.Progressions.{full};
ghost use Rattle.strided_rules.specs.Rules.{rests as rests_of, toward_zero as toward_zero_of};
ghost use Rattle.strided_rules.specs.Rules.{signed_rests as signed_rests_of, least_rest as least_rest_of};
ghost use Rattle.strided_rules.specs.Rules.{greatest_rest as greatest_rest_of};

use crate::over::Rule;
use progressions::Progression;
use whole_numbers::Whole;

/// The piece itself.
#[derive(Clone, Copy, Drop)]
pub struct Same;

impl Rule for Same {
    ghost gives = { λ _ p. p };

    #[tactic(auto, using(crate::proofs::Places::far_places))]
    fn at(&self, p: &Progression) -> Progression {
        *p
    }
}

/// Quotients by 2 to a number of bits, rounded down.
#[derive(Clone, Copy, Drop)]
pub struct Shifts {
    pub bits: u64,
}

impl Rule for Shifts {
    ghost gives = { λ r p. quotients_of (full r.bits) p };

    // Past 66 bits nothing but the sign is left of a number within 2 to the 64.
    fn at(&self, p: &Progression) -> Progression {
        if self.bits < 66 {
            p.quotients(Whole::power_of_two(self.bits as u32))
        } else {
            p.quotients(Whole::power_of_two(66))
        }
    }
}

/// Quotients by a number other than 0, rounded toward 0.
#[derive(Clone, Copy, Drop)]
pub struct TowardZero {
    pub divisor: Whole,
    ghost some: { divisor ≢ pos 0 },
}

impl Rule for TowardZero {
    ghost gives = { λ r p. toward_zero_of r.divisor p };

    #[tactic(auto, unfolding(strided_rules::specs::Rules::toward_zero), using(crate::proofs::Places::near_zero))]
    fn at(&self, p: &Progression) -> Progression {
        let d = self.divisor;
        let (a, b) = (p.lo.toward_zero(d), p.hi.toward_zero(d));
        Progression::from_to(a.least(b), a.greatest(b), Whole::of(1))
    }
}

/// Rests by a number above 0.
#[derive(Clone, Copy, Drop)]
pub struct Rests {
    pub divisor: Whole,
    ghost positive: { pos 0 <ℤ divisor },
    ghost small: { divisor ≤ℤ pos (2 ^ 64) },
}

/// The rests of the ends where they have one quotient, else all.
#[tactic(auto, unfolding(strided_rules::specs::Rules::rests))]
fn rests_by(divisor: Whole, p: &Progression) -> Progression
    requires positive { pos 0 <ℤ divisor }
    requires small { divisor ≤ℤ pos (2 ^ 64) }
    ensures { result ≡ rests_of divisor p.now }
{
    if p.hi.quotient(divisor).at_most(p.lo.quotient(divisor)) {
        Progression::from_to(p.lo.rest(divisor), p.hi.rest(divisor), p.step)
    } else {
        Progression::from_to(Whole::of(0), divisor - Whole::of(1), Whole::of(1))
    }
}

impl Rule for Rests {
    ghost gives = { λ r p. rests_of r.divisor p };

    fn at(&self, p: &Progression) -> Progression {
        rests_by(self.divisor, p)
    }
}

/// Rests that have the sign of the number, by a divisor of this size.
#[derive(Clone, Copy, Drop)]
pub struct SignedRests {
    pub size: Whole,
    ghost positive: { pos 0 <ℤ size },
    ghost small: { size ≤ℤ pos (2 ^ 64) },
}

/// The least rest of numbers from lo on.
fn least_rest(size: Whole, lo: Whole) -> Whole
    requires positive { pos 0 <ℤ size }
    requires small { size ≤ℤ pos (2 ^ 64) }
    ensures { result ≡ least_rest_of size lo }
{
    if lo.below(Whole::of(0)) {
        lo.greatest(Whole::of(1) - size)
    } else {
        Whole::of(0)
    }
}

/// The greatest rest of numbers up to hi.
fn greatest_rest(size: Whole, hi: Whole) -> Whole
    requires positive { pos 0 <ℤ size }
    requires small { size ≤ℤ pos (2 ^ 64) }
    ensures { result ≡ greatest_rest_of size hi }
{
    if Whole::of(0).below(hi) {
        hi.least(size - Whole::of(1))
    } else {
        Whole::of(0)
    }
}

impl Rule for SignedRests {
    ghost gives = { λ r p. signed_rests_of r.size p };

    #[tactic(auto, unfolding(strided_rules::specs::Rules::signed_rests))]
    fn at(&self, p: &Progression) -> Progression {
        let least = least_rest(self.size, p.lo);
        let greatest = greatest_rest(self.size, p.hi);
        Progression::from_to(least, greatest, Whole::of(1))
    }
}
