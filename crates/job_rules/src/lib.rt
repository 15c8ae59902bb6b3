//! Jobs: runs of a program one after another, each from what the last left.
//!
//! A periodic task keeps its globals from one job to the next. The definitions stand in `specs/`: the memory that a run
//! leaves, when it is what a start holds, and sequences of jobs. There is no code but functions that do nothing, whose
//! clauses are the laws.
#![tactic(auto)]

// What the definitions promise.
mod laws;

// Sequences, worked out by hand.
mod worked;

pub use laws::{
    any_inputs_come_next, jobs_start_inside, memory_left_alone_comes_next, one_job_is_a_run,
    runs_that_end_leave_memories,
};
pub use worked::jobs_go_on_where_globals_are_put_back;
