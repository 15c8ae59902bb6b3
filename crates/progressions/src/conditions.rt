//! Tests of what calls ask of a progression.

ghost use Rattle.std.specs.Prelude.{◌≤◌, ◌-ℤ◌, IsTrue, ◌↔◌};
ghost use Rattle.std.specs.Int.{w128};
ghost use Rattle.std.specs.Int.RustNames.{FitsSigned};
ghost use Rattle.progressions.specs.Progressions.{IsProgression, IsPlaced};
ghost use Rattle.progressions.specs.Limits.{IsSmall};

use crate::ends::Progression;
use crate::pieces::power;
use whole_numbers::Whole;

impl Progression {
    /// Its ends and its step belong together.
    pub fn is_progression(&self) -> bool
        requires { FitsSigned w128 (self.now.hi -ℤ self.now.lo) }
        ensures { IsTrue result ↔ IsProgression self.now }
    {
        self.lo.at_most(self.hi)
            && Whole::of(0).at_most(self.step)
            && (self.hi - self.lo).is_multiple_of(self.step)
            && (self.lo.below(self.hi) || self.step.at_most(Whole::of(0)))
    }

    /// Its ends and its step are far from the limits of 128 bits.
    pub fn is_small(&self) -> bool
        ensures { IsTrue result ↔ IsSmall self.now }
    {
        let (end, width) = (Whole::power_of_two(70), Whole::power_of_two(71));
        (-end).at_most(self.lo)
            && self.hi.at_most(end)
            && self.lo.at_most(self.hi)
            && Whole::of(0).at_most(self.step)
            && self.step.at_most(width)
    }

    /// It is in normal form at the size.
    pub fn is_placed(&self, size: u32) -> bool
        requires least { 1 ≤ size }
        requires most { size ≤ 64 }
        requires fits { FitsSigned w128 (self.now.hi -ℤ self.now.lo) }
        ensures { IsTrue result ↔ IsPlaced size self.now }
    {
        let half = power(size - 1);
        self.is_progression()
            && (-half).at_most(self.lo)
            && self.lo.below(half)
            && (self.hi - self.lo).below(power(size))
    }
}
