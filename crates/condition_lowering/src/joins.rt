//! What operators make of conditions.

ghost use Rattle.std.specs.Prelude.{◌≡◌, ℕ, List, if◌then◌else◌};
ghost use Rattle.alf_program.specs.Tree.{BodyItem};
ghost use Rattle.c_lowered.specs.Conditions.{by_unary, by_binary};
ghost use Rattle.condition_lowering.specs.Joins.{by_join};

use c_unit::{Binary, Unary};

/// How an operator joins conditions.
#[derive(Clone, Copy, Debug)]
pub enum Join {
    /// `&&`: both hold.
    Both,
    /// `||`: either holds.
    Either,
    /// Another operator, which has a value.
    Neither,
}

/// How the operator joins conditions.
pub fn join_of(op: Binary) -> Join
    ensures items { (x y z : List BodyItem) → by_binary op x y z ≡ by_join result x y z }
    ensures labels { (x y z : ℕ) → by_binary op x y z ≡ by_join result x y z }
{
    match op {
        Binary::Multiply => Join::Neither,
        Binary::Divide => Join::Neither,
        Binary::Remainder => Join::Neither,
        Binary::Add => Join::Neither,
        Binary::Subtract => Join::Neither,
        Binary::ShiftLeft => Join::Neither,
        Binary::ShiftRight => Join::Neither,
        Binary::Less => Join::Neither,
        Binary::Greater => Join::Neither,
        Binary::AtMost => Join::Neither,
        Binary::AtLeast => Join::Neither,
        Binary::Equal => Join::Neither,
        Binary::Unequal => Join::Neither,
        Binary::And => Join::Neither,
        Binary::Xor => Join::Neither,
        Binary::Or => Join::Neither,
        Binary::Both => Join::Both,
        Binary::Either => Join::Either,
    }
}

/// Whether the operator is `!`.
pub fn is_not(op: Unary) -> bool
    ensures items { (x y : List BodyItem) → by_unary op x y ≡ (if result then x else y) }
    ensures labels { (x y : ℕ) → by_unary op x y ≡ (if result then x else y) }
{
    match op {
        Unary::Not => true,
        Unary::Complement => false,
        Unary::Minus => false,
        Unary::Plus => false,
        Unary::Load => false,
        Unary::Address => false,
    }
}
