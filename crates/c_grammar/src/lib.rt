//! The grammar of C texts: which symbols tokens are, and rules over these symbols.
//!
//! `symbol_of` tells of each token what it is to the grammar. Where a token does not fit its place,
//! `Others` tells with which tokens C99 could go on there, if each form of the profile might stand
//! wherever C99 lets it: such a token is outside the profile, and any other is a syntax fault. The
//! rules stand in `specs/`, and each is exact by its type.
#![tactic(auto)]

// What tokens are.
mod marks;
mod symbol;
mod words;

// What else might stand at a place.
mod others;

// The words of a type.
mod specifiers;

// Where statements stand.
mod standing;

// Rows, worked out by hand.
mod worked;

pub use others::{Casts, Others, goes_with, starts_statement};
pub use specifiers::{Base, NextWord, Setting, Sign, Specifiers, outcome_of, with_word};
pub use standing::{Assigning, Standing};
pub use symbol::{Lead, Symbol, TypeWord, is_specifier, lead_of, starts_type, symbol_of};
pub use worked::{marks_and_words_are_symbols, units_have_their_trees, words_make_a_type};
