//! What tests of explorations share: programs in a short notation, flow charts that are stepped, and runs of recorders.
//!
//! - `checked_text` reads and checks a program, and `program_of`, `outline_of` and `costed` make programs and their outlines
//!   from words for jumps, switches and calls.
//! - `Chart` is a flow chart over one number, and steps a `Span` of them. It knows nothing of programs, memories or words,
//!   and shows how little a stepper has to say.
//! - `Silent` is a recorder that keeps nothing.
//! - `record` and `record_joined` go along walks of an outline and enter them in a book, of whatever recorder.
//!
//! Nothing is trusted but the standard library.
#![tactic(auto)]

// Programs and outlines.
mod sketch;

// What is known of a number.
mod span;

// A flow chart, and how it steps.
mod chart;
mod edges;
mod fork;
mod taken;

// A recorder that keeps nothing.
mod silent;

// Runs that are entered in a book.
mod along;
mod run_edges;
mod runs;

pub use along::go_along;
pub use chart::Chart;
pub use fork::{Fork, Way};
pub use runs::{new_book, record, record_joined};
pub use silent::Silent;
pub use sketch::{checked_text, costed, outline_of, program_of};
pub use span::Span;
