//! A place in a text of ALF, and what is read there: tokens, numbers, names, frames and expressions.
//!
//! Each function that reads has the clause that it gives what reading by its rule gives. Items, functions
//! and programs are read in `alf_text`.
#![tactic(auto)]

// Where a text departs from the grammar.
mod fault;

// Single tokens, and what is counted.
mod counts;
mod reader;
mod words;

// Reading by the grammar's rules.
mod expressions;
mod frames;
mod names;
mod numbers;
mod parts;

// Rows, worked out by hand.
mod worked;

pub use counts::{MOST_BYTES_OF_FRAMES, MOST_FRAMES, MOST_FUNCTIONS};
pub use fault::{Departure, FaultAt, TextFault, misfit, outside};
pub use reader::{Counts, Reader};
pub use worked::terms_are_what_their_texts_say;
