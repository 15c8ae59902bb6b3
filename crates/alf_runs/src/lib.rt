//! What a run of a checked program is, and what is true of every run.
//!
//! The definitions stand in `specs/`, each in a file of its own: the value of an expression
//! (`Expressions`), what statements do (`Statements`), functions entered (`Entering`), the step
//! (`Steps`), how a run ends (`Outcomes`), runs (`Runs`), and where they start (`Starts`). They are
//! functions, so that a program has one run for each input. There is no code: the machine that
//! makes these steps is a crate above.
#![tactic(auto)]

// What the definitions promise.
mod laws;

// Small programs, worked out.
mod worked;

pub use laws::{
    a_run_has_one_continuation, a_run_has_one_end, a_step_leads_along_an_edge,
    active_frames_follow_the_call_path, starts_and_calls_store_without_a_fault,
    values_have_their_size,
};
pub use worked::{
    addresses_fault_where_they_lead, calls_pass_entries_and_blocks, loads_read_what_was_stored,
};
