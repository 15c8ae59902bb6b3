//! The transfer of a program in code: a stepper over abstract memories.
//!
//! A step does a block's statements in order over a memory, with faults united, and then what the block ends with: it
//! goes on or jumps, has one successor for each arm of a switch, calls, or returns. What it makes is exactly what the
//! definitions of `transfer_rules` say, of which the laws of a stepper are proved in `transfer_rules`. The crate rests
//! on `step_statements`, on `branch_refinement` and on graphs of checked programs.
#![tactic(auto)]

// The node where a step is made, and where steps lead.
mod here;
mod turns;

// What blocks end with.
mod calling;
mod ending;
mod returning;
mod switching;

// The memory at the start of runs.
mod start;

// The stepper.
mod stepper;

pub use stepper::AlfStepper;
