//! Whether a number is one of a progression's, tested by the letter of the rule.

ghost use Rattle.std.specs.Prelude.{◌≡◌, ◌≤◌, ◌^◌, pos, neg_ℤ, ◌≤ℤ◌};
ghost use Rattle.progressions.specs.Progressions.{IsProgression};
ghost use Rattle.progressions.specs.Limits.{IsSmall};
ghost use Rattle.strided_rules.specs.Members.{has_number as has_number_of};

use progressions::Progression;
use whole_numbers::Whole;

/// The number is one of the progression's.
#[tactic(auto, using(progressions::specs::ProgressionLaws::step_positive))]
pub fn has_number(p: &Progression, n: Whole) -> bool
    requires progression { IsProgression p.now }
    requires small { IsSmall p.now }
    requires low { neg_ℤ (pos (2 ^ 70)) ≤ℤ n }
    requires high { n ≤ℤ pos (2 ^ 70) }
    ensures { result ≡ has_number_of p.now n }
{
    p.lo.at_most(n)
        && n.at_most(p.hi)
        && (p.hi.at_most(p.lo) || (n - p.lo).rest(p.step).at_most(Whole::of(0)))
}
