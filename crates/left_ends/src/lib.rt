//! The memory that the runs of a program leave where they end.
//!
//! `left_ends` explores a program's graph as an analysis does, with a recorder that keeps nothing. Before a place is
//! stepped it looks at it: where its node is a block of the root that returns, the block's statements are done on a
//! copy of the state, and what is left is joined with what other ends left. By the law of `watched_steps` each point
//! of each run was stepped in a place whose state covers it, so each end was looked at.
#![tactic(auto)]

// The recorder.
mod silent;

// A place before it is stepped.
mod joining;
mod last;
mod looking;

// The exploration.
mod ends;
mod watching;

pub use ends::Ends;
pub use watching::left_ends;
