//! Conditions of C, lowered to jumps.
//!
//! A condition becomes switches on one bit that lead to one label where it holds and to another where it does not;
//! `&&`, `||` and `!` become ways between these and have no value. Items are put one after the other, and labels are
//! numbered as they come. What each function puts is said for any items that follow, as `c_lowered` defines it.
#![tactic(auto)]

// The function whose code is lowered, and what is put of it: items, labels and jumps.
mod code;
mod items;
mod labels;

// Conditions, by the operators that join them.
mod conditions;
mod joins;

// The parts of an `if` around what it leads to.
mod branches;

pub use branches::{begin_if, end_else, end_if, end_then, put_checked};
pub use code::Code;
pub use conditions::put_condition;
pub use items::put_act;
pub use labels::{label_name, put_jump, put_label};
