//! The numbers of a progression modulo 2 to a size, as up to three progressions of one turn.

ghost use Rattle.std.specs.Prelude.{◌≡◌, ◌≤◌, ◌^◌, pos, neg_ℤ, ◌≤ℤ◌};
ghost use Rattle.progressions.specs.Progressions.{IsPlaced, full};
ghost use Rattle.progressions.specs.Parts.{moved_part as moved_part_of, unsigned_pieces as unsigned_of};
ghost use Rattle.progressions.specs.Parts.{signed_pieces as signed_of};
ghost use Rattle.progressions.specs.Limits.{IfSmall};

use crate::ends::{Pieces, Progression};
use whole_numbers::Whole;

/// 2 to the size.
#[tactic(auto, using(crate::specs::ProgressionLaws::full_most))]
pub(crate) fn power(size: u32) -> Whole
    requires { size ≤ 64 }
    ensures value { result ≡ full size }
    ensures most { result ≤ℤ pos (2 ^ 64) }
    ensures rising { pos 0 ≤ℤ result }
{
    Whole::power_of_two(size)
}

/// The part, if there is one, with a number added.
fn moved_part(by: Whole, part: Option<Progression>) -> Option<Progression>
    requires small { IfSmall part }
    requires low { neg_ℤ (pos (2 ^ 70)) ≤ℤ by }
    requires high { by ≤ℤ pos (2 ^ 70) }
    ensures { result ≡ moved_part_of by part }
{
    match part {
        Some(part) => Some(part.moved(by)),
        None => None,
    }
}

impl Progression {
    /// The numbers modulo 2 to the size, from 0 on: those below 0, those of the range, those past it.
    pub fn unsigned_pieces(&self, size: u32) -> Pieces
        requires least { 1 ≤ size }
        requires most { size ≤ 64 }
        requires placed { IsPlaced size self.now }
        ensures { result ≡ unsigned_of size self.now }
    {
        let full = power(size);
        let low = self.up_to(Whole::of(-1));
        let high = self.from_least(full);
        Pieces {
            first: moved_part(full, low),
            second: self.between(Whole::of(0), full - Whole::of(1)),
            third: moved_part(-full, high),
        }
    }

    /// The numbers modulo 2 to the size, in the signed range: those of the range, those past it.
    pub fn signed_pieces(&self, size: u32) -> Pieces
        requires least { 1 ≤ size }
        requires most { size ≤ 64 }
        requires placed { IsPlaced size self.now }
        ensures { result ≡ signed_of size self.now }
    {
        let half = power(size - 1);
        let below = -power(size);
        let high = self.from_least(half);
        Pieces {
            first: self.up_to(half - Whole::of(1)),
            second: moved_part(below, high),
            third: None,
        }
    }
}
