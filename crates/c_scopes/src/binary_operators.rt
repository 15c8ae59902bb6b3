//! What operators between two operands give.

ghost use Rattle.std.specs.Prelude.{◌≡◌};
ghost use Rattle.c_unit.specs.declared.expression.Binary.TheVariants as binary;
ghost use Rattle.c_rules.specs.Types as types;

use crate::conversions::{common, promoted};
use crate::sameness::same_integer;
use c_unit::{Binary, Integer, Scalar};

/// The type to which two integers are converted.
fn common_type(left: Scalar, right: Scalar) -> Option<Scalar>
    ensures { result ≡ types.on_integers types.common left right }
{
    match (left, right) {
        (Scalar::Integer(a), Scalar::Integer(b)) => Some(Scalar::Integer(common(a, b))),
        (Scalar::Integer(_), Scalar::Pointer(_)) => None,
        (Scalar::Pointer(_), _) => None,
    }
}

/// What two integers give where the left one alone counts.
fn shift_type(left: Scalar, right: Scalar) -> Option<Scalar>
    ensures { result ≡ types.binary_type binary.ShiftLeft left right }
{
    match (left, right) {
        (Scalar::Integer(a), Scalar::Integer(_)) => Some(Scalar::Integer(promoted(a))),
        (Scalar::Integer(_), Scalar::Pointer(_)) => None,
        (Scalar::Pointer(_), _) => None,
    }
}

/// An `int`, for two integers.
fn both_type(left: Scalar, right: Scalar) -> Option<Scalar>
    ensures { result ≡ types.binary_type binary.Both left right }
{
    match (left, right) {
        (Scalar::Integer(_), Scalar::Integer(_)) => Some(Scalar::Integer(Integer::Int)),
        (Scalar::Integer(_), Scalar::Pointer(_)) => None,
        (Scalar::Pointer(_), _) => None,
    }
}

/// The sum of two integers, or of a pointer and an integer in either order.
fn sum_type(left: Scalar, right: Scalar) -> Option<Scalar>
    ensures { result ≡ types.sum_type left right }
{
    match (left, right) {
        (Scalar::Integer(a), Scalar::Integer(b)) => Some(Scalar::Integer(common(a, b))),
        (Scalar::Integer(_), Scalar::Pointer(b)) => Some(Scalar::Pointer(b)),
        (Scalar::Pointer(a), Scalar::Integer(_)) => Some(Scalar::Pointer(a)),
        (Scalar::Pointer(_), Scalar::Pointer(_)) => None,
    }
}

/// An `int`, where the pointers have one type.
fn of_pointers(a: Integer, b: Integer) -> Option<Scalar>
    ensures { result ≡ types.of_pointers a b }
{
    if same_integer(a, b) {
        Some(Scalar::Integer(Integer::Int))
    } else {
        None
    }
}

/// The difference of two integers, of a pointer and an integer, or of two pointers of one type.
fn difference_type(left: Scalar, right: Scalar) -> Option<Scalar>
    ensures { result ≡ types.difference_type left right }
{
    match (left, right) {
        (Scalar::Integer(a), Scalar::Integer(b)) => Some(Scalar::Integer(common(a, b))),
        (Scalar::Integer(_), Scalar::Pointer(_)) => None,
        (Scalar::Pointer(a), Scalar::Integer(_)) => Some(Scalar::Pointer(a)),
        (Scalar::Pointer(a), Scalar::Pointer(b)) => of_pointers(a, b),
    }
}

/// What a comparison of two integers gives, or of two pointers of one type.
fn comparison_type(left: Scalar, right: Scalar) -> Option<Scalar>
    ensures { result ≡ types.comparison_type left right }
{
    match (left, right) {
        (Scalar::Integer(_), Scalar::Integer(_)) => Some(Scalar::Integer(Integer::Int)),
        (Scalar::Integer(_), Scalar::Pointer(_)) => None,
        (Scalar::Pointer(_), Scalar::Integer(_)) => None,
        (Scalar::Pointer(a), Scalar::Pointer(b)) => of_pointers(a, b),
    }
}

/// What an operator between operands of these types gives.
pub fn binary_type(op: Binary, left: Scalar, right: Scalar) -> Option<Scalar>
    ensures { result ≡ types.binary_type op left right }
{
    match op {
        Binary::Multiply => common_type(left, right),
        Binary::Divide => common_type(left, right),
        Binary::Remainder => common_type(left, right),
        Binary::Add => sum_type(left, right),
        Binary::Subtract => difference_type(left, right),
        Binary::ShiftLeft => shift_type(left, right),
        Binary::ShiftRight => shift_type(left, right),
        Binary::Less => comparison_type(left, right),
        Binary::Greater => comparison_type(left, right),
        Binary::AtMost => comparison_type(left, right),
        Binary::AtLeast => comparison_type(left, right),
        Binary::Equal => comparison_type(left, right),
        Binary::Unequal => comparison_type(left, right),
        Binary::And => common_type(left, right),
        Binary::Xor => common_type(left, right),
        Binary::Or => common_type(left, right),
        Binary::Both => both_type(left, right),
        Binary::Either => both_type(left, right),
    }
}
