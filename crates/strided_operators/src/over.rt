//! Joins over pieces, and over the choices of pieces of two values, written and proved once.

ghost use Rattle.std.specs.Prelude.{◌≡◌, ◌≤◌, ◌^◌, pos, neg_ℤ};
ghost use Rattle.progressions.specs.declared.ends.Progression.{Progression as Numbers};
ghost use Rattle.progressions.specs.Parts.{IsPiece, IfPiece, ArePieces};
ghost use Rattle.strided_rules.specs.Joins.{added as added_of, at_piece, over, each as each_of};
ghost use Rattle.strided_rules.specs.Joins.{each_pair as each_pair_of, IfPlaced};
ghost use Rattle.strided_operators.specs.Limits.{CanPlace, IfTakes, TakesEach};

use crate::joining::joined;
use crate::placing::normed;
use progressions::{Pieces, Progression};

/// What an operator gives at a piece of its operand.
pub trait Rule {
    /// What it gives.
    ghost gives: { Self → Numbers → Numbers };

    /// What it gives at the piece.
    fn at(&self, p: &Progression) -> Progression
        requires { IsPiece (neg_ℤ (pos (2 ^ 64))) (pos (2 ^ 64)) p.now }
        ensures value { result ≡ gives self.now p.now }
        ensures place { CanPlace result };
}

/// What an operator gives at a piece of each of two operands.
pub trait PairRule {
    /// What it gives.
    ghost gives_both: { Self → Numbers → Numbers → Numbers };

    /// The pieces that it takes.
    ghost takes_both: { Self → Numbers → Numbers → Type 0 };

    /// What it gives at the pieces.
    fn at_both(&self, p: &Progression, q: &Progression) -> Progression
        requires { takes_both self.now p.now q.now }
        ensures value { result ≡ gives_both self.now p.now q.now }
        ensures place { CanPlace result };
}

/// What was joined so far with a progression as well.
pub fn added(size: u32, p: &Progression, so_far: Option<Progression>) -> Option<Progression>
    requires least { 1 ≤ size }
    requires most { size ≤ 64 }
    requires p { CanPlace p.now }
    requires so_far { IfPlaced size so_far }
    ensures value { result ≡ added_of size p.now so_far }
    ensures placed { IfPlaced size result }
{
    let placed = normed(size, p);
    match so_far {
        None => Some(placed),
        Some(before) => Some(joined(size, &before, &placed)),
    }
}

/// The same with what the rule gives at a piece, if there is one.
fn each_onto<R: Rule>(
    size: u32,
    rule: &R,
    piece: Option<Progression>,
    so_far: Option<Progression>,
) -> Option<Progression>
    requires least { 1 ≤ size }
    requires most { size ≤ 64 }
    requires piece { IfPiece (neg_ℤ (pos (2 ^ 64))) (pos (2 ^ 64)) piece }
    requires so_far { IfPlaced size so_far }
    ensures value { result ≡ at_piece piece (λ p. added_of size (R.gives rule.now p)) so_far }
    ensures placed { IfPlaced size result }
{
    match piece {
        None => so_far,
        Some(p) => {
            let given = rule.at(&p);
            added(size, &given, so_far)
        }
    }
}

/// The join over the pieces of what the rule gives.
#[tactic(auto, unfolding(strided_rules::specs::Joins::each))]
pub fn each<R: Rule>(size: u32, rule: &R, pieces: &Pieces) -> Option<Progression>
    requires least { 1 ≤ size }
    requires most { size ≤ 64 }
    requires pieces { ArePieces (neg_ℤ (pos (2 ^ 64))) (pos (2 ^ 64)) pieces.now }
    ensures value { result ≡ each_of size (R.gives rule.now) pieces.now }
    ensures placed { IfPlaced size result }
{
    let first = each_onto(size, rule, pieces.first, None);
    let second = each_onto(size, rule, pieces.second, first);
    each_onto(size, rule, pieces.third, second)
}

/// What was joined so far with what the rule gives at both pieces, if there is a second.
fn pair_onto<R: PairRule>(
    size: u32,
    rule: &R,
    p: &Progression,
    piece: Option<Progression>,
    so_far: Option<Progression>,
) -> Option<Progression>
    requires least { 1 ≤ size }
    requires most { size ≤ 64 }
    requires takes { IfTakes (R.takes_both rule.now p.now) piece }
    requires so_far { IfPlaced size so_far }
    ensures value { result ≡ at_piece piece (λ q. added_of size (R.gives_both rule.now p.now q)) so_far }
    ensures placed { IfPlaced size result }
{
    match piece {
        None => so_far,
        Some(q) => {
            let given = rule.at_both(p, &q);
            added(size, &given, so_far)
        }
    }
}

/// The same over all second pieces, if there is a first.
fn seconds_onto<R: PairRule>(
    size: u32,
    rule: &R,
    piece: Option<Progression>,
    seconds: &Pieces,
    so_far: Option<Progression>,
) -> Option<Progression>
    requires least { 1 ≤ size }
    requires most { size ≤ 64 }
    requires takes { IfTakes (λ p. TakesEach (R.takes_both rule.now p) seconds.now) piece }
    requires so_far { IfPlaced size so_far }
    ensures value { result
        ≡ at_piece piece (λ p. over seconds.now (λ q. added_of size (R.gives_both rule.now p q))) so_far }
    ensures placed { IfPlaced size result }
{
    match piece {
        None => so_far,
        Some(p) => {
            let one = pair_onto(size, rule, &p, seconds.first, so_far);
            let two = pair_onto(size, rule, &p, seconds.second, one);
            pair_onto(size, rule, &p, seconds.third, two)
        }
    }
}

/// The join over the choices of two pieces, the first slowest, of what the rule gives.
#[tactic(auto, unfolding(strided_rules::specs::Joins::each_pair))]
pub fn each_pair<R: PairRule>(
    size: u32,
    rule: &R,
    firsts: &Pieces,
    seconds: &Pieces,
) -> Option<Progression>
    requires least { 1 ≤ size }
    requires most { size ≤ 64 }
    requires takes { TakesEach (λ p. TakesEach (R.takes_both rule.now p) seconds.now) firsts.now }
    ensures value { result ≡ each_pair_of size (R.gives_both rule.now) firsts.now seconds.now }
    ensures placed { IfPlaced size result }
{
    let one = seconds_onto(size, rule, firsts.first, seconds, None);
    let two = seconds_onto(size, rule, firsts.second, seconds, one);
    seconds_onto(size, rule, firsts.third, seconds, two)
}
