//! Programs of ALF: functions, their frames and items, statements and expressions.
#![tactic(auto)]

mod program;

// Rows, worked out by hand.
mod worked;

pub use program::{Alloc, Expr, Func, Init, Item, Num, Program, Sizes, Stmt};
pub use worked::{functions_end_by_leaving_their_last_block, operators_have_their_operands};
