//! What operators before an operand, casts and indexing give.

ghost use Rattle.std.specs.Prelude.{◌≡◌, true};
ghost use Rattle.c_unit.specs.declared.expression.Unary.TheVariants as unary;
ghost use Rattle.c_rules.specs.Types as types;

use crate::conversions::promoted;
use c_unit::{Integer, Scalar, Unary};

/// The type after promotion, if it is an integer type.
fn promoted_type(given: Scalar) -> Option<Scalar>
    ensures { result ≡ types.on_integer types.promoted given }
{
    match given {
        Scalar::Integer(a) => Some(Scalar::Integer(promoted(a))),
        Scalar::Pointer(_) => None,
    }
}

/// An `int`, if the operand is an integer.
fn negated_type(given: Scalar) -> Option<Scalar>
    ensures { result ≡ types.unary_type unary.Not true given }
{
    match given {
        Scalar::Integer(_) => Some(Scalar::Integer(Integer::Int)),
        Scalar::Pointer(_) => None,
    }
}

/// What a pointer leads to.
fn loaded(given: Scalar) -> Option<Scalar>
    ensures { result ≡ types.loaded given }
{
    match given {
        Scalar::Integer(_) => None,
        Scalar::Pointer(a) => Some(Scalar::Integer(a)),
    }
}

/// A pointer to the operand, if that may be assigned to and is an integer.
fn addressed(place: bool, given: Scalar) -> Option<Scalar>
    ensures { result ≡ types.addressed place given }
{
    if !place {
        return None;
    }
    match given {
        Scalar::Integer(a) => Some(Scalar::Pointer(a)),
        Scalar::Pointer(_) => None,
    }
}

/// What an operator before an operand of this type gives; `place` says that the operand may be assigned to.
pub fn unary_type(op: Unary, place: bool, given: Scalar) -> Option<Scalar>
    ensures { result ≡ types.unary_type op place given }
{
    match op {
        Unary::Not => negated_type(given),
        Unary::Complement => promoted_type(given),
        Unary::Minus => promoted_type(given),
        Unary::Plus => promoted_type(given),
        Unary::Load => loaded(given),
        Unary::Address => addressed(place, given),
    }
}

/// What a cast gives: an integer is cast to an integer type, and a pointer to a pointer type.
pub fn cast_type(to: Scalar, given: Scalar) -> Option<Scalar>
    ensures { result ≡ types.cast_type to given }
{
    match (to, given) {
        (Scalar::Integer(a), Scalar::Integer(_)) => Some(Scalar::Integer(a)),
        (Scalar::Integer(_), Scalar::Pointer(_)) => None,
        (Scalar::Pointer(_), Scalar::Integer(_)) => None,
        (Scalar::Pointer(a), Scalar::Pointer(_)) => Some(Scalar::Pointer(a)),
    }
}

/// What an indexed element is: the base is a pointer, and the index an integer.
pub fn index_type(base: Scalar, index: Scalar) -> Option<Scalar>
    ensures { result ≡ types.index_type base index }
{
    match (base, index) {
        (Scalar::Pointer(a), Scalar::Integer(_)) => Some(Scalar::Integer(a)),
        (Scalar::Pointer(_), Scalar::Pointer(_)) => None,
        (Scalar::Integer(_), _) => None,
    }
}
