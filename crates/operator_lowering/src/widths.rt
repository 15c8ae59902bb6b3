//! Sizes and signs of integer types.

ghost use Rattle.std.specs.Prelude.{◌≡◌};
ghost use Rattle.c_meaning.specs.Values as meaning;

use c_scopes::{common, promoted};
use c_unit::{Integer, Scalar};

/// How many bytes an object of the type has.
pub fn bytes_of_type(kind: Integer) -> u32
    ensures { result ≡ meaning.bytes_of_type kind }
{
    match kind {
        Integer::Char => 1,
        Integer::UnsignedChar => 1,
        Integer::Short => 2,
        Integer::UnsignedShort => 2,
        Integer::Int => 4,
        Integer::UnsignedInt => 4,
    }
}

/// How many bits an object of the type has.
pub fn bits_of_type(kind: Integer) -> u32
    ensures { result ≡ meaning.bits_of_type kind }
{
    match kind {
        Integer::Char => 8,
        Integer::UnsignedChar => 8,
        Integer::Short => 16,
        Integer::UnsignedShort => 16,
        Integer::Int => 32,
        Integer::UnsignedInt => 32,
    }
}

/// Whether the type has a sign.
pub fn is_signed(kind: Integer) -> bool
    ensures { result ≡ meaning.is_signed kind }
{
    match kind {
        Integer::Char => true,
        Integer::UnsignedChar => false,
        Integer::Short => true,
        Integer::UnsignedShort => false,
        Integer::Int => true,
        Integer::UnsignedInt => false,
    }
}

/// The type to which two operands are converted.
pub fn shared(left: Scalar, right: Scalar) -> Integer
    ensures { result ≡ meaning.shared left right }
{
    match left {
        Scalar::Integer(a) => match right {
            Scalar::Integer(b) => common(a, b),
            Scalar::Pointer(_) => Integer::UnsignedInt,
        },
        Scalar::Pointer(_) => Integer::UnsignedInt,
    }
}

/// The type to which a left operand is promoted.
pub fn left_type(left: Scalar) -> Integer
    ensures { result ≡ meaning.left_type left }
{
    match left {
        Scalar::Integer(a) => promoted(a),
        Scalar::Pointer(_) => Integer::UnsignedInt,
    }
}
