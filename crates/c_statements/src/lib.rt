//! Reading statements and local declarations of C.
//!
//! Each function that reads has the clause that it gives what reading by its rule of `c_grammar`
//! gives. Reading goes as deep as statements may be nested.
#![tactic(auto)]

// What a statement does.
mod effects;

// Local declarations.
mod locals;
mod parts;

// Labels of a switch.
mod labels;

// Statements: their heads, and what follows these.
mod ends;
mod heads;
mod innermost;
mod loops;
mod made;
mod simple;
mod statements;

pub use locals::semicolon;
pub use statements::{block_items, read_standing};
