//! The program that a command reads, from a file of ALF or of C.
//!
//! A file of ALF is read, its program checked and expanded to its graph. A file of C is read, its unit
//! checked and lowered to a program of ALF, which is expanded in the same way. What stops a file on its
//! way has one line. The clauses say which order of work this is, in the words of the crate `command_plans`, and
//! what told files say of the program that comes of it: of C that each run has the outcome of the unit.
#![tactic(auto)]

// The lines of refusals.
mod lines;

// Programs of ALF and units of C.
mod programs;
mod units;

// The program of a command, with its graph.
mod expanding;

// Rows, worked out by hand.
mod worked;

pub use expanding::{Expanded, checked_in, expanded_in, graph_of};
pub use lines::{limit_line, number_or_dash, push_quoted};
pub use programs::{MOST_BYTES_OF_A_FILE, TOO_LONG, program_in};
pub use units::{checked_unit_in, unit_in};
pub use worked::{checks_refuse_in_one_line, texts_are_refused_in_one_line};
