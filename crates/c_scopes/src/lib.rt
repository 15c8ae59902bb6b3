//! What names of C are bound to, the types that operators give, and the functions that are defined.
//!
//! Each function is a definition of `c_rules` as code. `Words` are the tokens of a unit. `Scopes` are the scopes
//! in a row around a part of the unit; a name is looked up from the innermost scope outward, by a table.
//! `Definitions` has the names of all definitions of a unit in their order, with a table of the first of each
//! name, which gives the function its number.
//!
//! Types are told after C99, 6.3.1: the integer promotions, the usual arithmetic conversions, what suits where a
//! type is wanted, and the type that each operator gives, or `None` where its operands do not fit. No function on
//! types takes memory. `Fault` is what checks of units tell, and `c_faults` and `c_check` are those checks.
#![tactic(auto)]

// The tokens of a unit.
mod unit_tokens;

// What names are bound to: entries, names in a row, and scopes.
mod entry;
mod row;
mod scopes;

// Types that are the same, conversions, and what each operator gives.
mod binary_operators;
mod conversions;
mod other_operators;
mod sameness;

// What checks tell.
mod fault;

// The functions that are defined, in order, and the table over them.
mod definitions;
mod made;
mod table;

pub use binary_operators::binary_type;
pub use conversions::{common, promoted};
pub use definitions::Definitions;
pub use entry::{Bound, Entry};
pub use fault::Fault;
pub use other_operators::{cast_type, index_type, unary_type};
pub use sameness::{same_outcome, same_scalar, suits};
pub use scopes::Scopes;
pub use unit_tokens::Words;
