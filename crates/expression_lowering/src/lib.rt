//! Expressions of C, lowered: one walk over an expression makes the expression of ALF and tells the type.
//!
//! `value_of` makes the value of an expression, and `address_of` where the object lies that it designates. Both go
//! over each part once, and as deep as the expression. What is due is said by `c_lowered`; operators are those of
//! `operator_lowering`, and names of frames come from `object_layout`.
#![tactic(auto)]

// What an expression is lowered to, with its type.
mod typed;

// Names and constants, and expressions.
mod expressions;
mod leaves;

pub use expressions::{address_of, value_of};
pub use typed::kind_or_int;
