//! The greatest and the least number of pieces.

ghost use Rattle.std.specs.Prelude.{◌≡◌};
ghost use Rattle.strided_rules.specs.Members.{greater_end as greater_end_of, lesser_end as lesser_end_of};
ghost use Rattle.strided_rules.specs.Members.{greatest_of as greatest_of_all, least_of as least_of_all};

use progressions::{Pieces, Progression};
use whole_numbers::Whole;

/// The greater of a number and the last of a piece.
fn greater_end(so_far: Whole, piece: Option<Progression>) -> Whole
    ensures { result ≡ greater_end_of so_far piece }
{
    match piece {
        None => so_far,
        Some(p) => so_far.greatest(p.hi),
    }
}

/// The lesser of a number and the first of a piece.
fn lesser_end(so_far: Whole, piece: Option<Progression>) -> Whole
    ensures { result ≡ lesser_end_of so_far piece }
{
    match piece {
        None => so_far,
        Some(p) => so_far.least(p.lo),
    }
}

/// The greatest number of the pieces, or `least` where that is greater.
pub fn greatest_of(least: Whole, pieces: &Pieces) -> Whole
    ensures { result ≡ greatest_of_all least pieces.now }
{
    let one = greater_end(least, pieces.first);
    let two = greater_end(one, pieces.second);
    greater_end(two, pieces.third)
}

/// The least number of the pieces, or `greatest` where that is less.
pub fn least_of(greatest: Whole, pieces: &Pieces) -> Whole
    ensures { result ≡ least_of_all greatest pieces.now }
{
    let one = lesser_end(greatest, pieces.first);
    let two = lesser_end(one, pieces.second);
    lesser_end(two, pieces.third)
}
