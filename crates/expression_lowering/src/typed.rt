//! What an expression is lowered to, with its type.

ghost use Rattle.std.specs.Prelude.{◌≡◌};
ghost use Rattle.std.specs.Option.{option_and_then};
ghost use Rattle.c_unit.specs.Tree.{expression_of};
ghost use Rattle.c_rules.specs.Types as types;
ghost use Rattle.c_rules.specs.Expressions as laws;
ghost use Rattle.expression_lowering.specs.Kinds as kinds;

use alf_program::Expr as Term;
use c_faults::designates;
use c_scopes::{Scopes, binary_type, cast_type, index_type, unary_type};
use c_unit::{Binary, Expr, Integer, Scalar, Unary};

/// What an expression is lowered to, and its type, which each expression of a program has.
#[derive(Drop)]
pub struct Typed {
    pub kind: Option<Scalar>,
    pub value: Term,
}

/// The type, or `int` where there is none.
pub fn kind_or_int(kind: Option<Scalar>) -> Scalar
    ensures { result ≡ kinds.kind_or_int kind }
{
    match kind {
        Some(kind) => kind,
        None => Scalar::Integer(Integer::Int),
    }
}

/// The type that an operator before an operand of this type gives.
pub fn unary_kind(
    scopes: &Scopes<'_>,
    op: Unary,
    operand: &Expr,
    given: Option<Scalar>,
) -> Option<Scalar>
    ensures { result
        ≡ option_and_then
        (types.unary_type op (laws.designates scopes.now.words scopes.now.scopes (expression_of operand.now))) given }
{
    match given {
        Some(given) => unary_type(op, designates(scopes, operand), given),
        None => None,
    }
}

/// The type of a cast.
pub fn cast_kind(to: Scalar, given: Option<Scalar>) -> Option<Scalar>
    ensures { result ≡ option_and_then (types.cast_type to) given }
{
    match given {
        Some(given) => cast_type(to, given),
        None => None,
    }
}

/// The type of an element.
pub fn index_kind(base: Option<Scalar>, index: Option<Scalar>) -> Option<Scalar>
    ensures { result ≡ laws.on_both types.index_type base index }
{
    match base {
        Some(base) => match index {
            Some(index) => index_type(base, index),
            None => None,
        },
        None => None,
    }
}

/// The type that an operator between operands of these types gives.
pub fn binary_kind(op: Binary, left: Option<Scalar>, right: Option<Scalar>) -> Option<Scalar>
    ensures { result ≡ laws.on_both (types.binary_type op) left right }
{
    match left {
        Some(left) => match right {
            Some(right) => binary_type(op, left, right),
            None => None,
        },
        None => None,
    }
}
