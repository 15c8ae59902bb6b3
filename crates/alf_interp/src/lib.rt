//! Runs of a checked program: a machine that makes them step by step, and the one run from given inputs, counted.
//!
//! A `Machine` stands at a node of the program's graph. Its memory stands for histories, so the machine stands for
//! every run that has come to this node with such a history. `Machine::start` stands where the runs with given
//! inputs start, and `step` goes where each of these runs goes, or tells how all of them end. `count` makes the
//! run by a machine, turn by turn, and counts for each node of the graph how often the run stands there.
//!
//! What a run is, is defined in `alf_runs`, apart from all code, and what a memory stands for in `alf_values`;
//! nodes and edges are those of `flow_graph`.
#![tactic(auto)]

// What is told of a step.
mod moved;

// What a step is made of.
mod filling;
mod outputs;
mod statements;
mod turn;
mod values;

// The machine.
mod machine;

// The run, turn by turn, and what is counted of it.
mod counting;
mod tally;

// Rows, worked out by hand.
mod worked;

pub use counting::count;
pub use machine::Machine;
pub use moved::{Moved, Outputs};
pub use tally::{Counted, RunEnd, Tally};
pub use worked::traces_are_counted_and_added_up;
