//! Tests of texts of C and of their checks: `c_tokens`, `c_unit`, `c_text` and `c_check`. Without tests this library is
//! empty.
//!
//! - `tokens`, `constants`, `units`: tokens and their places, what constants are worth, ranges and trees.
//! - `readings`, `edits`, `limits`, `corners`: texts, texts with one token changed, texts at the limits and in corners of the
//!   grammar, and what is told of them.
//! - `names`, `types`, `orders`: texts that are read, and what the checks tell of them.
//! - `answers`: what the tests share.
#![tactic(auto)]

// What the tests share.
#[cfg(test)]
mod answers;

// Tokens, constants and trees.
#[cfg(test)]
mod constants;
#[cfg(test)]
mod tokens;
#[cfg(test)]
mod units;

// What is told of a text where it is read.
#[cfg(test)]
mod corners;
#[cfg(test)]
mod edits;
#[cfg(test)]
mod limits;
#[cfg(test)]
mod readings;

// What the checks tell of it.
#[cfg(test)]
mod names;
#[cfg(test)]
mod orders;
#[cfg(test)]
mod types;
