//! Parts of a piece.

ghost use Rattle.std.specs.Prelude.{◌≡◌, ◌^◌, pos, neg_ℤ};
ghost use Rattle.progressions.specs.Parts.{IsPiece, IfPiece, between as between_of};
ghost use Rattle.strided_rules.specs.Members.{part_of, without_end as without_end_of};

use crate::meeting::is_same;
use progressions::Progression;
use whole_numbers::Whole;

/// The numbers of a piece from `least` to `greatest`.
#[tactic(auto, using(crate::proofs::Parts::between_piece))]
pub fn between(least: Whole, greatest: Whole, piece: Option<Progression>) -> Option<Progression>
    requires { IfPiece (neg_ℤ (pos (2 ^ 64))) (pos (2 ^ 64)) piece }
    ensures value { result ≡ part_of (between_of least greatest) piece }
    ensures piece { IfPiece (neg_ℤ (pos (2 ^ 64))) (pos (2 ^ 64)) result }
{
    match piece {
        None => None,
        Some(p) => p.between(least, greatest),
    }
}

/// A progression without a number that stands at an end of it.
fn end_dropped(number: Whole, p: &Progression) -> Option<Progression>
    requires { IsPiece (neg_ℤ (pos (2 ^ 64))) (pos (2 ^ 64)) p.now }
    ensures { result ≡ without_end_of number p.now }
{
    if is_same(p.lo, number) {
        p.without_first()
    } else if is_same(p.hi, number) {
        p.without_last()
    } else {
        Some(*p)
    }
}

/// The same of a piece, if there is one.
#[tactic(auto, using(crate::proofs::Parts::end_piece))]
pub fn without_end(number: Whole, piece: Option<Progression>) -> Option<Progression>
    requires { IfPiece (neg_ℤ (pos (2 ^ 64))) (pos (2 ^ 64)) piece }
    ensures value { result ≡ part_of (without_end_of number) piece }
    ensures piece { IfPiece (neg_ℤ (pos (2 ^ 64))) (pos (2 ^ 64)) result }
{
    match piece {
        None => None,
        Some(p) => end_dropped(number, &p),
    }
}
