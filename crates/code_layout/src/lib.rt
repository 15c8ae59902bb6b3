//! Where the code of a program lies in memory.
//!
//! The blocks of all functions stand one after the other from address 0, functions in the order of the text and
//! blocks by their numbers. A block has 4 bytes for each of its statements, the one that ends it among them.
#![tactic(auto)]

// How many statements there are.
mod statements;

// Where they lie.
mod places;

// What the definitions promise, and a program that is laid out.
mod laws;
mod worked;

pub use laws::{blocks_lie_one_behind_the_other, nodes_lie_where_their_blocks_do};
pub use places::parts;
pub use statements::{MOST_STATEMENTS, statement_count};
pub use worked::small_programs_are_laid_out;
