//! Membership, and the progression round two.

ghost use Rattle.std.specs.Prelude.{◌≡◌, ◌^◌, pos, ◌≤ℤ◌, ◌-ℤ◌, IsTrue, ◌↔◌};
ghost use Rattle.std.specs.Int.{w128};
ghost use Rattle.std.specs.Int.RustNames.{FitsSigned};
ghost use Rattle.progressions.specs.Progressions.{Has, hull as hull_of};
ghost use Rattle.progressions.specs.Limits.{AreNear};

use crate::ends::Progression;
use whole_numbers::Whole;

impl Progression {
    /// The number is one of the progression's.
    pub fn has(&self, number: Whole) -> bool
        requires { FitsSigned w128 (self.now.hi -ℤ self.now.lo) }
        ensures { IsTrue result ↔ Has self.now number }
    {
        self.lo.at_most(number)
            && number.at_most(self.hi)
            && (number - self.lo).is_multiple_of(self.step)
    }

    /// The least progression that has the numbers of both.
    #[tactic(auto, unfolding(crate::specs::Progressions::hull), using(whole_numbers::specs::GcdLaws::gcd_fits, whole_numbers::specs::GcdLaws::gcd_fits_three))]
    pub fn hull(&self, other: &Progression) -> Progression
        requires near { AreNear self.now }
        requires other { AreNear other.now }
        requires step { (pos 0 ≤ℤ self.now.step) × (self.now.step ≤ℤ pos (2 ^ 73)) }
        requires other_step { (pos 0 ≤ℤ other.now.step) × (other.now.step ≤ℤ pos (2 ^ 73)) }
        ensures value { result ≡ hull_of self.now other.now }
        ensures near { AreNear result }
    {
        let steps = self.step.common_divisor(other.step);
        let step = steps.common_divisor(self.lo - other.lo);
        Progression::from_to(self.lo.least(other.lo), self.hi.greatest(other.hi), step)
    }
}
