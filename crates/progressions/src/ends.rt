//! A progression by its ends and its step, and the pieces of one.

ghost use Rattle.std.specs.Prelude.{◌≡◌};
ghost use Rattle.progressions.specs.Progressions.{from_to as from_to_of, lone as lone_of};

use whole_numbers::Whole;

/// The whole numbers lo, lo + step, .., hi.
///
/// Its calls take a progression in which these belong together: lo is at most hi, the step divides
/// their distance, and it is 0 exactly where there is one number.
#[derive(Clone, Copy, PartialEq, Eq, Debug, Drop)]
pub struct Progression {
    pub lo: Whole,
    pub hi: Whole,
    pub step: Whole,
}

/// Up to three progressions, in order. A place that has no number is empty.
#[derive(Clone, Copy, PartialEq, Eq, Debug, Drop)]
pub struct Pieces {
    pub first: Option<Progression>,
    pub second: Option<Progression>,
    pub third: Option<Progression>,
}

impl Progression {
    /// The number alone.
    pub fn lone(number: Whole) -> Progression
        ensures { result ≡ lone_of number }
    {
        Progression {
            lo: number,
            hi: number,
            step: Whole::of(0),
        }
    }

    /// The numbers from `lo` to `hi`; where there is one, the step is 0.
    pub fn from_to(lo: Whole, hi: Whole, step: Whole) -> Progression
        ensures { result ≡ from_to_of lo hi step }
    {
        Progression {
            lo,
            hi,
            step: if lo.below(hi) { step } else { Whole::of(0) },
        }
    }
}
