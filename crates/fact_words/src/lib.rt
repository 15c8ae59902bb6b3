//! The words of a report: cut as tokens, read as numbers and names, and printed.
//!
//! A word ends at a space and at a line feed, but a space between two quotes belongs to it, and it may be empty,
//! so cutting a text is total. Each token tells whether it begins a line, and how many bytes of the text are left
//! where it begins. A `Cursor` cuts one token at a time from the rest of the text and takes no memory, so that a
//! report of millions of lines costs nothing but its facts.
//!
//! A number has no zeros before its digits, and each number has its range; whole numbers of 128 bits may be below
//! 0. The name of a node is the name of a path of calls, a colon, and `entry` or a block. Laws say that these are
//! the words that `print` writes, which puts one line for each thing that a report (`flow_facts`) says. No grammar
//! is known here; the rules stand in words in `docs/formats/report.md`.
#![tactic(auto)]

// What is cut, and cutting on demand.
mod cursor;
mod token;
mod word_length;

// Single words, and how a text departs.
mod fault;
mod names;
mod numbers;

// The text of a report: words and numbers, lines, and the whole.
mod lines;
mod printer;
mod spaced_words;

// What the definitions promise.
mod laws;

// Rows, worked out by hand.
mod worked;

pub use cursor::Cursor;
pub use fault::{Departure, FaultAt, ReportFault};
pub use laws::{printed_texts_are_cut, texts_are_their_tokens};
pub use names::is_node_name;
pub use numbers::{is_positive, number_within, whole_within};
pub use printer::print;
pub use token::Token;
pub use worked::{numbers_have_one_spelling, words_end_at_spaces_and_lines};
