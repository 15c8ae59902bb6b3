//! What the machine of a program says of the program's runs.
//!
//! The machine of a program steps along points, which are numbers of nodes and histories. Each run of the
//! program is a run of its system and each run of the system is one of the program, with the same end. Here
//! is no code but functions that do nothing, whose clauses are the laws.
#![tactic(auto)]

// What the definitions promise.
mod laws;

// Rows, worked out by hand.
mod worked;

pub use laws::{
    a_graph_has_one_ranking, a_lone_input_has_one_start, runs_of_a_program_are_runs_of_its_machine,
};
pub use worked::nodes_cost_what_their_blocks_cost;
