//! The top call of the program: words, files and a sink in, a status out.
//!
//! `run` is what the program does: it reads the words and the files that they name, makes one text
//! and writes it. Its clauses say which text answers which words, for every shelf and every sink,
//! that a report that it prints is sound for every run of the program that was read, and that what it
//! tells of a run is so. A command is a file of its own in `commands/` and in `specs/`, and a row in
//! each of the two tables.
#![tactic(auto)]

// What the words say.
mod words;

// What nodes cost.
mod node_costs;

// The commands, and the program: its words, and its arguments.
mod arguments;
mod commands;
mod top;

// Laws of answers.
mod laws;

pub use arguments::run_arguments;
pub use command_plans::Status;
pub use laws::{
    a_migrated_report_says_the_same, each_run_of_c_has_the_outcome_from_its_own_cells,
    merges_have_their_policies, one_answer, one_input_is_told_exactly, own_reports_are_accepted,
    reports_stay,
};
pub use top::{run, run_in_memory};
