//! What expressions give and what statements make of an abstract memory, and functions entered.
//!
//! Each call gives exactly what the definitions of `transfer_rules` say, whose laws hold of it: values of expressions
//! with the faults that some run may end with, and memories after statements. The crate rests on abstract memory and on
//! checked programs.
#![tactic(auto)]

// What expressions give.
mod evaluating;
mod operating;

// What statements make of a memory, and cells that are filled.
mod filling;
mod storing;

// Functions entered.
mod entering;

pub use entering::{enter, enter_plainly};
pub use evaluating::{evaluate, evaluate_arguments};
pub use filling::{fill, put_inits};
pub use storing::{do_statements, store_at};
