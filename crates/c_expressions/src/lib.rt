//! Reading expressions and calls of C.
//!
//! Each function that reads has the clause that it gives what reading by its rule of `c_grammar`
//! gives. Reading goes as deep as operators and parentheses may be nested.
#![tactic(auto)]

// What is asked of operators and expressions.
mod measures;

// Expressions.
mod expressions;

// Calls, and what is assigned.
mod calls;
mod parts;

pub use calls::{assigned, at_call, open_paren, read_call};
pub use expressions::{close_paren, read_condition, read_target, whole_expr};
pub use measures::{is_postfix, rest_after_postfix, rest_of, rest_of_value};
