//! The rules of strided values, as definitions on whole numbers, and their laws.
//!
//! A strided value is a size and a progression of whole numbers; its words are those numbers modulo 2
//! to the size. What each call of a domain answers at such values stands in `specs/`, a rule a line, and
//! is proved to be a domain: no word is lost, division by 0 is told, and from values of one word come
//! values of one word. Here is no code but functions that do nothing, whose clauses are the laws. The
//! crate rests on the table of operators, and on the laws of progressions.
#![tactic(auto)]

// What the rules promise.
mod laws;

// The rules at some values, worked out.
mod worked;

pub use laws::strided_values_are_a_domain;
pub use worked::{rules_come_out, values_are_normed_and_joined};
