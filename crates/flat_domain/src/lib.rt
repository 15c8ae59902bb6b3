//! Sets of words that are one word or every word of a size: the flat domain, the smallest of all.
//!
//! `Flat` implements `Lattice` and `Domain` of `domain_core`, and is the tutorial for the next implementation. A
//! contract sees a value as its size and its word, if it has one alone. What each call answers is a definition of
//! `specs/Flats`: the code is proved against it, and the laws of the traits are proved of the definitions.
//!
//! Beside it stands what any domain asks of the operands of an operator, by the table of `alf_ops` alone: whether
//! the operator divides, how many bits its result has, which bits it selects, and whether there is one set of its
//! size for each operand. No call takes memory.
#![tactic(auto)]

// The sets.
mod set;

// The operator, and sets for its operands.
mod row;
mod sizes;

// What an operator gives where each operand is one word.
mod known;

pub use known::fit;
pub use row::{divides, places, size_of};
pub use set::Flat;
pub use sizes::{HasSize, fit as operand_fit};
