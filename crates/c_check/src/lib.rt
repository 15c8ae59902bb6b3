//! The checks of a unit of C, and what passes them.
//!
//! `check` gives the program whose root has a name, or why the unit is none. Names, types and counts are checked
//! first, in the order of the text, then that no function calls itself, also through others, and then that the
//! root is defined. What is told is what `c_rules` says of the unit, by names and places in place of tokens.
//!
//! The text is gone through once for its faults: `check_unit` for what stands at file level, and `check_body` for
//! the statements of a function, over the checks of expressions and declarations in `c_faults`. Functions are
//! counted by the order of their definitions, as in `c_scopes`; `function_ranks` gives each a rank, so that each
//! call leads to a lower one, or the first cycle of calls, by `graph_walks`.
#![tactic(auto)]

// Statements: what stands around them, those in which none stand, and all others.
mod body_statements;
mod for_parts;
mod labels;
mod leaving;
mod place;

// What stands at file level, and functions with their bodies.
mod externals;
mod functions;

// Calls in statements, and the table of who calls whom.
mod call_statements;
mod expression_calls;
mod noting;
mod tables;

// Ranks of functions, or a cycle of calls.
mod ranks;

// The checks in their order, what passes, and what is told where one does not.
mod checking;
mod fault;
mod program;
mod telling;

pub use body_statements::check_body;
pub use checking::check;
pub use externals::check_unit;
pub use fault::CFault;
pub use program::CProgram;
pub use ranks::function_ranks;
