//! Statements of C, lowered to the items of a function.
//!
//! Items are put one after the other, and labels and calls are numbered as they come. Conditions are those of
//! `condition_lowering`. What each function puts is said for any items that follow, as `c_lowered` defines it.
#![tactic(auto)]

// Where `break` and `continue` lead, and the numbers of labels and calls; jumps and stores.
mod context;
mod items;

// Calls, and what is done without statements.
mod arrays;
mod calls;
mod effects;
mod locals;
mod values;

// Statements in which no statement stands.
mod plain;
mod returns;

// What is put before statements that stand in others, and after them.
mod braces;
mod controls;
mod loops;
mod switch_labels;
mod switches;

// Statements.
mod statements;

pub use statements::put_body;
