//! Parts of progressions: from a number on, up to one, without an end.

ghost use Rattle.std.specs.Prelude.{◌≡◌};
ghost use Rattle.progressions.specs.Progressions.{IsProgression};
ghost use Rattle.progressions.specs.Parts.{from_least as from_least_of, up_to as up_to_of, between as between_of};
ghost use Rattle.progressions.specs.Parts.{without_first as without_first_of, without_last as without_last_of};
ghost use Rattle.progressions.specs.Limits.{IsSmall};

use crate::ends::Progression;
use whole_numbers::Whole;

impl Progression {
    /// The numbers from `least` on, if there is one.
    #[tactic(auto, unfolding(crate::specs::Parts::from_least), using(crate::specs::ProgressionLaws::step_positive))]
    pub fn from_least(&self, least: Whole) -> Option<Progression>
        requires progression { IsProgression self.now }
        requires small { IsSmall self.now }
        ensures { result ≡ from_least_of least self.now }
    {
        if least.at_most(self.lo) {
            Some(*self)
        } else if self.hi.below(least) {
            None
        } else {
            let first = least + (self.lo - least).rest(self.step);
            Some(Progression::from_to(first, self.hi, self.step))
        }
    }

    /// The numbers up to `greatest`, if there is one.
    #[tactic(auto, unfolding(crate::specs::Parts::up_to), using(crate::specs::ProgressionLaws::step_positive))]
    pub fn up_to(&self, greatest: Whole) -> Option<Progression>
        requires progression { IsProgression self.now }
        requires small { IsSmall self.now }
        ensures { result ≡ up_to_of greatest self.now }
    {
        if self.hi.at_most(greatest) {
            Some(*self)
        } else if greatest.below(self.lo) {
            None
        } else {
            let last = greatest - (greatest - self.lo).rest(self.step);
            Some(Progression::from_to(self.lo, last, self.step))
        }
    }

    /// The numbers from `least` to `greatest`, if there is one.
    #[tactic(auto, using(crate::specs::PartLaws::from_least_is, crate::proofs::PartLemmas::from_least_small))]
    pub fn between(&self, least: Whole, greatest: Whole) -> Option<Progression>
        requires progression { IsProgression self.now }
        requires small { IsSmall self.now }
        ensures { result ≡ between_of least greatest self.now }
    {
        match self.from_least(least) {
            Some(part) => part.up_to(greatest),
            None => None,
        }
    }

    /// The numbers but the first, if there is one.
    #[tactic(auto, unfolding(crate::specs::Parts::without_first))]
    pub fn without_first(&self) -> Option<Progression>
        requires { IsSmall self.now }
        ensures { result ≡ without_first_of self.now }
    {
        if self.lo.below(self.hi) {
            let first = self.lo + self.step;
            Some(Progression::from_to(first, self.hi, self.step))
        } else {
            None
        }
    }

    /// The numbers but the last, if there is one.
    #[tactic(auto, unfolding(crate::specs::Parts::without_last))]
    pub fn without_last(&self) -> Option<Progression>
        requires { IsSmall self.now }
        ensures { result ≡ without_last_of self.now }
    {
        if self.lo.below(self.hi) {
            let last = self.hi - self.step;
            Some(Progression::from_to(self.lo, last, self.step))
        } else {
            None
        }
    }
}
