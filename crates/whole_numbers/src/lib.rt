//! Whole numbers: an `i128` that contracts see as a whole number, and the laws of divisibility.
//!
//! A sum, a difference or a product is asked for where it fits 128 bits, which is a condition of the
//! call, or tested by `checked_add`, `checked_sub` and `checked_mul`, which give none exactly where it
//! does not. Code over `Whole` has no number of the machine in its goals: they are equations of whole
//! numbers. No call takes memory. Nothing is trusted but the standard library.
#![tactic(auto)]

// The number, its comparisons and its arithmetic.
mod arithmetic;
mod number;
mod order;

// Division, and common divisors.
mod division;
mod divisors;

// Laws that the definitions keep.
mod laws;

pub use laws::{floors_are_rounded_down, greatest_divisors_are_greatest, multiples_are_tested};
pub use number::Whole;
