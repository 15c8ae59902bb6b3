//! Pieces of numbers, most of which need no turn to be words.

ghost use Rattle.std.specs.Prelude.{◌≡◌, ◌≤◌, ◌<◌, pos, ◌≤ℤ◌, ◌<ℤ◌, IsTrue};
ghost use Rattle.progressions.specs.Progressions.{IsPlaced, full};
ghost use Rattle.progressions.specs.Parts.{unsigned_pieces as unsigned_pieces_of, signed_pieces as signed_pieces_of};

use progressions::{Pieces, Progression};
use strided_operators::power;
use whole_numbers::Whole;

/// The numbers are from 0 to below 2 to the size, so that each is its own word.
pub(crate) fn are_words(size: u32, numbers: &Progression) -> bool
    requires { size ≤ 64 }
    ensures low { IsTrue result → pos 0 ≤ℤ numbers.now.lo }
    ensures high { IsTrue result → numbers.now.hi <ℤ full size }
    ensures exactly { pos 0 ≤ℤ numbers.now.lo → numbers.now.hi <ℤ full size → IsTrue result }
{
    Whole::of(0).at_most(numbers.lo) && numbers.hi.below(power(size))
}

/// The pieces read unsigned.
pub(crate) fn unsigned_pieces(size: u32, numbers: &Progression) -> Pieces
    requires least { 1 ≤ size }
    requires most { size ≤ 64 }
    requires placed { IsPlaced size numbers.now }
    ensures { result ≡ unsigned_pieces_of size numbers.now }
{
    if are_words(size, numbers) {
        Pieces {
            first: None,
            second: Some(*numbers),
            third: None,
        }
    } else {
        numbers.unsigned_pieces(size)
    }
}

/// The pieces read signed.
pub(crate) fn signed_pieces(size: u32, numbers: &Progression) -> Pieces
    requires least { 1 ≤ size }
    requires most { size ≤ 64 }
    requires placed { IsPlaced size numbers.now }
    ensures { result ≡ signed_pieces_of size numbers.now }
{
    if numbers.hi.below(power(size - 1)) {
        Pieces {
            first: Some(*numbers),
            second: None,
            third: None,
        }
    } else {
        numbers.signed_pieces(size)
    }
}
