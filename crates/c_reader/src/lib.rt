//! A place in a C text, and what is read of tokens and types there.
//!
//! A text is cut into tokens once (`cut`), and a `Reader` goes over them. Each function that reads has
//! the clause that it gives what reading by its rule of `c_grammar` gives. Expressions, statements and
//! whole texts are read in the crates above.
#![tactic(auto)]

// Where a text departs from the grammar.
mod fault;

// Single tokens, and what is counted.
mod counts;
mod names;
mod reader;
mod tokens;

// Types, constants and arrays.
mod parts;
mod types;

pub use fault::{Departure, misfit};
pub use names::Names;
pub use reader::{Reader, begins_with};
pub use tokens::{CutToken, Token, cut, spans};
pub use types::after_constant;
