//! Tests of abstract values: sets of words, strided values and pointers, as `flat_domain`, `interval_congruence` and
//! `pointer_domain` have them. Without tests this library is empty.
//!
//! - `flat`: sets of one word, or of every word.
//! - `strided`: joins, words left out, and relations of strided values.
//! - `operators`: what operators give at strided values, by the lines of `rows` and `further_rows`.
//! - `pointers`: operators at words and pointers.
#![tactic(auto)]

// Sets of one word, or of every word.
#[cfg(test)]
mod flat;

// Strided values.
#[cfg(test)]
mod further_rows;
#[cfg(test)]
mod operators;
#[cfg(test)]
mod rows;
#[cfg(test)]
mod strided;

// Words and pointers.
#[cfg(test)]
mod pointers;
