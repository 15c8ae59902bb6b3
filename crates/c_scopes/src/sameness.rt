//! Types that are the same, and what stands where a type is wanted.

ghost use Rattle.std.specs.Prelude.{◌≡◌};
ghost use Rattle.c_rules.specs.Types as types;

use c_unit::{Integer, Outcome, Scalar};

/// The number of an integer type among all.
fn rank(a: Integer) -> u32
    ensures { result ≡ types.rank a }
{
    match a {
        Integer::Char => 0,
        Integer::UnsignedChar => 1,
        Integer::Short => 2,
        Integer::UnsignedShort => 3,
        Integer::Int => 4,
        Integer::UnsignedInt => 5,
    }
}

/// Whether the integer types are the same.
pub fn same_integer(a: Integer, b: Integer) -> bool
    ensures { result ≡ types.same_integer a b }
{
    rank(a) == rank(b)
}

/// Whether the types are the same.
pub fn same_scalar(a: Scalar, b: Scalar) -> bool
    ensures { result ≡ types.same_scalar a b }
{
    match (a, b) {
        (Scalar::Integer(a), Scalar::Integer(b)) => same_integer(a, b),
        (Scalar::Integer(_), Scalar::Pointer(_)) => false,
        (Scalar::Pointer(_), Scalar::Integer(_)) => false,
        (Scalar::Pointer(a), Scalar::Pointer(b)) => same_integer(a, b),
    }
}

/// Whether functions that give these are of one type.
pub fn same_outcome(a: Outcome, b: Outcome) -> bool
    ensures { result ≡ types.same_outcome a b }
{
    match (a, b) {
        (Outcome::Nothing, Outcome::Nothing) => true,
        (Outcome::Nothing, Outcome::Integer(_)) => false,
        (Outcome::Integer(_), Outcome::Nothing) => false,
        (Outcome::Integer(a), Outcome::Integer(b)) => same_integer(a, b),
    }
}

/// Whether the type is an integer type.
pub fn is_integer(given: Scalar) -> bool
    ensures { result ≡ types.is_integer given }
{
    match given {
        Scalar::Integer(_) => true,
        Scalar::Pointer(_) => false,
    }
}

/// Whether a value of the type may stand where one of the wanted type is wanted: an integer where an integer
/// is wanted, and the same pointer type where a pointer is.
pub fn suits(wanted: Scalar, given: Scalar) -> bool
    ensures { result ≡ types.suits wanted given }
{
    match wanted {
        Scalar::Integer(_) => is_integer(given),
        Scalar::Pointer(_) => same_scalar(wanted, given),
    }
}
