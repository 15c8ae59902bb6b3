//! Abstract values: words of one size, and pointers, as strided values. Their rules are definitions, and
//! their laws are proved of them.
//!
//! An abstract value has a part of words and, by ascending frame, parts of offsets. An operator takes
//! each choice of one part for each operand, by the rules of a run and of strided values; the values are
//! joined in the order of the choices, the first operand slowest, and the faults united. Here is no code
//! but functions that do nothing, whose clauses are the laws. The crate rests on the table of operators
//! and on the laws of strided values.
#![tactic(auto)]

// What the rules promise.
mod laws;

// The rules at some values, worked out.
mod worked;

pub use laws::{abstract_values_are_a_lattice, operators_tell_each_outcome};
pub use worked::pointers_come_out;
