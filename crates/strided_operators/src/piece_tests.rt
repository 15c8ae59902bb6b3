//! What may hold of the numbers of two pieces, and of some choice of them.

ghost use Rattle.std.specs.Prelude.{◌≡◌, ◌^◌, pos, neg_ℤ, Bool, Some};
ghost use Rattle.progressions.specs.declared.ends.Progression.{Progression as Numbers};
ghost use Rattle.progressions.specs.Parts.{IsPiece, IfPiece, ArePieces};
ghost use Rattle.strided_rules.specs.Operators.{at_choice as at_choice_of, some_second as some_second_of};
ghost use Rattle.strided_rules.specs.Operators.{some_choice as some_choice_of, below as below_of};
ghost use Rattle.strided_rules.specs.Operators.{at_most as at_most_of, meet as meet_of};

use crate::meeting::meet;
use progressions::{Pieces, Progression};

/// What may hold of a number of each of two pieces.
pub trait PieceTest {
    /// Whether it may.
    ghost may: { Self → Numbers → Numbers → Bool };

    /// It may hold.
    fn holds(&self, p: &Progression, q: &Progression) -> bool
        requires first { IsPiece (neg_ℤ (pos (2 ^ 64))) (pos (2 ^ 64)) p.now }
        requires second { IsPiece (neg_ℤ (pos (2 ^ 64))) (pos (2 ^ 64)) q.now }
        ensures { result ≡ may self.now p.now q.now };
}

/// The first is below the second.
#[derive(Clone, Copy, Drop)]
pub struct Below;

impl PieceTest for Below {
    ghost may = { λ _ p q. below_of p q };

    fn holds(&self, p: &Progression, q: &Progression) -> bool {
        p.lo.below(q.hi)
    }
}

/// The first is at most the second.
#[derive(Clone, Copy, Drop)]
pub struct AtMost;

impl PieceTest for AtMost {
    ghost may = { λ _ p q. at_most_of p q };

    fn holds(&self, p: &Progression, q: &Progression) -> bool {
        p.lo.at_most(q.hi)
    }
}

/// They may be equal.
#[derive(Clone, Copy, Drop)]
pub struct Meet;

impl PieceTest for Meet {
    ghost may = { λ _ p q. meet_of p q };

    fn holds(&self, p: &Progression, q: &Progression) -> bool {
        meet(p, q)
    }
}

/// It may hold of the pieces, if there is a second.
fn at_choice<T: PieceTest>(test: &T, p: &Progression, q: Option<Progression>) -> bool
    requires first { IsPiece (neg_ℤ (pos (2 ^ 64))) (pos (2 ^ 64)) p.now }
    requires second { IfPiece (neg_ℤ (pos (2 ^ 64))) (pos (2 ^ 64)) q }
    ensures { result ≡ at_choice_of (T.may test.now) (Some p.now) q }
{
    match q {
        None => false,
        Some(q) => test.holds(p, &q),
    }
}

/// It may hold of the piece, if there is one, and one of the others.
fn some_second<T: PieceTest>(test: &T, p: Option<Progression>, others: &Pieces) -> bool
    requires first { IfPiece (neg_ℤ (pos (2 ^ 64))) (pos (2 ^ 64)) p }
    requires others { ArePieces (neg_ℤ (pos (2 ^ 64))) (pos (2 ^ 64)) others.now }
    ensures { result ≡ some_second_of (T.may test.now) p others.now }
{
    match p {
        None => false,
        Some(p) => {
            let first = at_choice(test, &p, others.first);
            let second = at_choice(test, &p, others.second);
            let third = at_choice(test, &p, others.third);
            first || (second || third)
        }
    }
}

/// It may hold of some choice of pieces.
pub fn some_choice<T: PieceTest>(test: &T, firsts: &Pieces, others: &Pieces) -> bool
    requires firsts { ArePieces (neg_ℤ (pos (2 ^ 64))) (pos (2 ^ 64)) firsts.now }
    requires others { ArePieces (neg_ℤ (pos (2 ^ 64))) (pos (2 ^ 64)) others.now }
    ensures { result ≡ some_choice_of (T.may test.now) firsts.now others.now }
{
    let first = some_second(test, firsts.first, others);
    let second = some_second(test, firsts.second, others);
    let third = some_second(test, firsts.third, others);
    first || (second || third)
}
