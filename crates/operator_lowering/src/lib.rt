//! Operators and conversions of C as expressions of ALF.
//!
//! Each function makes of expressions the one that `c_lowered` defines under the same name. What an operator is
//! lowered to is told by the types of its operands, as `c_scopes` has them; what these are lowered to is handed
//! in.
#![tactic(auto)]

// Parts of expressions: numbers, addresses, and operators of ALF.
mod terms;

// Sizes and signs of types, and conversions between words and the bits of types.
mod conversions;
mod widths;

// Operators, by the types of their operands, and tests.
mod arithmetic;
mod operators;
mod prefixes;
mod tests;

pub use arithmetic::{element_address, pointee};
pub use conversions::{cast_to, cut, cut_to, loaded};
pub use operators::binary_value;
pub use prefixes::unary_value;
pub use terms::{address, constant_of, negated, whole};
pub use tests::{is_true, test_of};
pub use widths::{bits_of_type, bytes_of_type, is_signed, left_type};
