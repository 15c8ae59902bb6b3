//! Sizes of objects, in bits.

ghost use Rattle.std.specs.Prelude.{◌≡◌, ◌≤◌, ◌*◌};
ghost use Rattle.c_unit.specs.Limits.{most_elements};
ghost use Rattle.c_unit.specs.Tree.{local_shape_of};
ghost use Rattle.c_rules.specs.Counts.{elements_of};
ghost use Rattle.c_meaning.specs.Objects as meaning;
ghost use Rattle.c_meaning.specs.Values.{bits_of_type as bits_of};

use c_scopes::Words;
use c_tokens::Worth;
use c_unit::{Integer, LocalShape, Parameter, Scalar};
use operator_lowering::bits_of_type;

/// How many elements the token of an array's size gives it.
pub fn count_at(words: &Words<'_>, size: u32) -> u32
    ensures { result ≡ meaning.count_at words.now size }
{
    match words.worth_at(size) {
        Worth::NoConstant => 0,
        Worth::TooLarge => 0,
        Worth::Int(number) => number,
        Worth::UnsignedInt(number) => number,
    }
}

/// The bits of so many elements of the type.
#[tactic(auto, using(crate::proofs::Arrays::array_fits))]
pub fn bits_of_array(words: &Words<'_>, kind: Integer, size: u32) -> u32
    requires few { meaning.count_at words.now size ≤ most_elements }
    ensures { result ≡ meaning.count_at words.now size * bits_of kind }
{
    count_at(words, size) * bits_of_type(kind)
}

/// The bits of a variable.
pub fn bits_of_scalar(kind: Scalar) -> u32
    ensures { result ≡ meaning.bits_of_scalar kind }
{
    match kind {
        Scalar::Integer(kind) => bits_of_type(kind),
        Scalar::Pointer(_) => 32,
    }
}

/// The bits of a local.
pub fn bits_of_local(words: &Words<'_>, kind: Integer, shape: &LocalShape) -> u32
    requires few { elements_of words.now (local_shape_of shape.now) ≤ most_elements }
    ensures { result ≡ meaning.bits_of_local words.now kind (local_shape_of shape.now) }
{
    match shape {
        LocalShape::Integer(_) => bits_of_type(kind),
        LocalShape::Pointer(_) => 32,
        LocalShape::Array(size, _) => bits_of_array(words, kind, *size),
    }
}

/// The token by which a parameter is known: its name, or its first where it has none.
pub fn parameter_token(parameter: &Parameter) -> u32
    ensures { result ≡ meaning.token_of_parameter parameter.now }
{
    match parameter.name {
        Some(name) => name,
        None => parameter.first,
    }
}
