//! The transfer: one step of a program over abstract memories, as rules, and the runs that it covers.
//!
//! The points that runs of a program pass, each a node of the graph with a history, are a concrete system: where
//! runs start from inputs inside given ranges, their next points, their ends and their faults. A step over a memory
//! evaluates expressions, with faults united and evaluation going on with what is left; statements come in order,
//! calls enter with arguments, returns leave and store, and a switch has one successor for each arm, whose memory
//! is refined by what the arm tells of the places that were read. It is proved that this is an abstract machine for
//! the points of runs: nothing that a run does is left out, and where one run alone is followed nothing is added.
//! The same holds of the machine over the parts that code keeps, since no store of a run lies outside the frames of
//! its program.
//!
//! The functions do nothing, and their clauses are the laws. They rest on the laws of runs (`alf_runs`), of graphs
//! (`flow_graph`), of abstract memory (`memory_rules`, `memory_model`) and of its values (`pointer_rules`).
#![tactic(auto)]

// The points that runs pass.
mod point_laws;

// What the transfer promises.
mod step_laws;

// Steps of small programs, worked out.
mod worked;

// The machine over what code keeps.
mod machine_laws;

pub use machine_laws::parts_are_a_machine;
pub use point_laws::{a_point_has_one_way, points_go_along_edges, runs_are_runs_of_points};
pub use step_laws::{
    expressions_are_told, memories_are_a_lattice, the_faults_of_an_address_are_told,
    the_transfer_is_a_machine,
};
pub use worked::{
    a_call_enters_and_returns, a_comparison_cuts_its_place, a_switch_takes_words_alone,
};
