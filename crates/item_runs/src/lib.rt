//! Runs of items of ALF, and which runs by nodes follow from them, as laws.
//!
//! A stretch of a function's items goes up to the first that leads elsewhere. `alf_check` cuts items into blocks,
//! and `alf_runs` says what a run does at a block; the first laws tie the two, so that what is said of items holds
//! of blocks.
//!
//! A run of items goes from stretch to stretch, with a stack of the calls that wait. It knows no block and no
//! node. The law of runs says that it comes to the outcome of the run of `alf_runs`, so that whoever makes items,
//! as the lowering of C does, has runs for it.
#![tactic(auto)]

// Stretches of items, and the blocks into which items are cut.
mod alf_item_laws;

// Runs of items, and runs by nodes.
mod laws;

// Small items, worked out.
mod worked;

pub use alf_item_laws::{blocks_do_what_their_items_do, stretches_go_to_named_labels};
pub use laws::{checked_programs_follow_their_items, runs_follow_items};
pub use worked::{small_items_run_as_worked_out, small_stretches_end_as_worked_out};
