//! The first fault of expressions, of what statements do, and of what is declared in C.
//!
//! All faults of a part of a unit stand in one list, in the order of the text, which `c_rules` defines. Each check
//! tells the first of the list of its part, and tells none exactly where that list is empty. One walk over an
//! expression gives its type or its first fault; calls, values and effects are checked over it. A local and a
//! global are known from their declarator on, a local also in its own initialiser.
//!
//! The checks of expressions, calls and effects take no memory and go as deep as the expression. Those of
//! declarations put names into scopes (`c_scopes`), so they stop with a fault or with want of memory (`Stop`).
#![tactic(auto)]

// Expressions: names and constants, operators over operands that have types, and where a type is wanted.
mod expressions;
mod leaves;
mod operators;
mod wanted;

// Calls, values, and what statements do.
mod arguments;
mod calls;
mod effects;
mod uses;
mod values;

// Why a check stops that takes memory.
mod stop;

// Locals, arrays and their initialisers.
mod arrays;
mod locals;

// What is declared at file level: parameters, heads of functions, and declarators.
mod agreement;
mod declarators;
mod heads;
mod params;

pub use arrays::{check_array, number_of};
pub use calls::check_call;
pub use declarators::check_declarators;
pub use effects::check_effect;
pub use expressions::expression_type;
pub use heads::check_head;
pub use leaves::designates;
pub use locals::check_locals;
pub use stop::Stop;
pub use uses::Use;
pub use values::check_value;
pub use wanted::{check_condition, check_wanted, target_type};
