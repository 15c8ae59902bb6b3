//! Lowered programs do what their unit does: the forward simulation, as laws.
//!
//! A checked program to which a unit is lowered has the outcome of the unit for each input, faults and endless
//! runs included (`each_program_has_the_outcome_of_its_unit`). What stands in statements without statements of its
//! own, a test, a store, the arguments of a call, is a leaf. Where each leaf does what the unit says, so do
//! conditions, loops, switches, functions and the program. Leaves do so by the laws of `lowering_values`, since
//! frames lie where `lowering_layout` says.
//!
//! Runs are followed by items, through `item_runs`. Labels are counted as they are allocated, so the items of a
//! statement have just those of its range. The items after a statement are an argument of its lowering, so that
//! "it stands here" says that a function's items end with its items and those.
#![tactic(auto)]

// Labels: each stands once, and leads to what stands after it.
mod label_laws;

// Runs, where leaves do what the unit says.
mod run_laws;

// That leaves do what the unit says.
mod leaf_laws;

// The theorem.
mod program_laws;

// Rows, worked out by hand.
mod worked;

pub use label_laws::{
    labels_lead_to_what_stands_after_them, labels_stand_once,
    the_rest_stands_after_the_items_of_a_statement,
};
pub use leaf_laws::lowered_programs_have_the_units_outcome;
pub use program_laws::each_program_has_the_outcome_of_its_unit;
pub use run_laws::runs_have_the_units_outcome;
pub use worked::outcomes_go_with_their_objects;
