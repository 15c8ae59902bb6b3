//! The integer promotions and the usual arithmetic conversions.

ghost use Rattle.std.specs.Prelude.{◌≡◌};
ghost use Rattle.c_rules.specs.Types as types;

use c_unit::Integer;

/// The type to which an operand is promoted: an `int` has all numbers of the smaller types.
pub fn promoted(a: Integer) -> Integer
    ensures { result ≡ types.promoted a }
{
    match a {
        Integer::Char => Integer::Int,
        Integer::UnsignedChar => Integer::Int,
        Integer::Short => Integer::Int,
        Integer::UnsignedShort => Integer::Int,
        Integer::Int => Integer::Int,
        Integer::UnsignedInt => Integer::UnsignedInt,
    }
}

/// Of two promoted types the one to which both are converted.
fn greater(a: Integer, b: Integer) -> Integer
    ensures { result ≡ types.greater a b }
{
    match a {
        Integer::UnsignedInt => Integer::UnsignedInt,
        _ => b,
    }
}

/// The type to which the operands of an operator are converted.
pub fn common(a: Integer, b: Integer) -> Integer
    ensures { result ≡ types.common a b }
{
    greater(promoted(a), promoted(b))
}
