//! What code of a lowered program computes: values, operators, and memories, as laws.
//!
//! A lowered program has a frame for each object of its unit, and further ones for the results of calls, of which
//! C knows nothing. A history of the program agrees with one of the unit where it is the same but for the stores
//! to further frames. Then the lowered expressions, tests, stores, arguments and results give what those of the
//! unit give, faults included, and so do starts and what is told at the end.
//!
//! The laws on further frames speak of any two tables of which one is embedded in the other: no value of the
//! source can point to a further frame. Those on operators speak of operands alone: where they give the embedded
//! values of those of C, the expression that `c_lowered` makes gives the embedded value of the operator, or the
//! same fault. Nothing is said here of labels, items or runs.
#![tactic(auto)]

// Memory within a memory of more frames.
mod injection_laws;

// What lowered operators give, and the sizes of what C gives.
mod operator_laws;

// Expressions, and what they designate.
mod expressions;

// Stores, calls, starts and outputs.
mod memories;

// Rows, worked out by hand.
mod worked;

pub use expressions::{
    conversions_agree, expressions_agree, operators_agree, tests_agree, values_fit,
};
pub use injection_laws::{
    a_further_frame_keeps_its_value, embedded_values_have_their_size, events_keep_agreement,
    functions_run_alike, loads_and_stores_agree,
};
pub use memories::{
    arguments_agree, constants_agree, functions_are_entered_alike, objects_have_their_address,
    outputs_agree, results_are_kept, starts_agree, stores_agree,
};
pub use operator_laws::{
    comparisons_give_their_bit, conversions_give_the_same, operators_give_the_same,
    values_have_their_size,
};
pub use worked::pointers_go_with_their_objects;
