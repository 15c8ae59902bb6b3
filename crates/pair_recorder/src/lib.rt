//! The recorder of pairs: which nodes of a scope a run visits in one iteration of it.
#![tactic(auto)]

// Bits in words, and rows of them.
mod marked;
mod tables;
mod words;

// A step of a run.
mod advance;
mod ending;
mod stepping;

// What was seen, as bits, and as a path.
mod bits;
mod collecting;
mod entries;
mod path;
mod seen;

// The recorder.
mod pairs;

// Rows, worked out by hand.
mod worked;

pub use pairs::{Pairs, PairsBook};
pub use worked::{paths_have_their_scopes, paths_of_outlines_are_paths};
