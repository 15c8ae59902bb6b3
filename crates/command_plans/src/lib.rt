//! The order of work of a command line tool, as combinators: a command as a plan of reads and judgements.
//!
//! Work over files gives a value, or stops with an outcome: a cause, and the line that tells it. Each combinator
//! carries the proof that told files have one value or one outcome, so a command that is written in them has one
//! answer by its type. In code a function answers `Result<_, Stop>` and goes on by `?`; its clause says which work
//! it does.
//!
//! No command is known here: `sweet_cli` and `program_files` write theirs in these. Files are read through the
//! shelf of `flow_base`.
#![tactic(auto)]

// How a tool ends, and why work stops.
mod status;
mod stop;

// A file, read in its turn.
mod reading;

// The answer, before it is written, and the line of a stop.
mod answer;
mod line;

// What the definitions promise.
mod laws;

pub use answer::Answer;
pub use laws::{
    each_ending_has_its_code, lines_end_in_their_one_feed, outcomes_that_are_alike_have_one_text,
    what_was_read_can_be_held,
};
pub use reading::{Role, read_file};
pub use status::Status;
pub use stop::{Stop, Why, stopped};
