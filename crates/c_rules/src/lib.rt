//! What makes a unit of C a program: types, names, and faults in the order of the text.
//!
//! Expressions are typed by cases on their trees, with the integer promotions and the usual arithmetic conversions
//! of C. All faults of a unit stand in one list, and the first counts; where there is none, the first cycle of
//! calls counts, and then the root. What the trees of a unit keep that some text spells is said here too, as
//! counts and limits.
//!
//! The trees are those of `c_unit`, the worth of constants is that of `c_tokens`, and calls that form a cycle are
//! those of `graph_walks`. All here are definitions and laws: the functions do nothing, and their clauses say what
//! every program keeps, and what comes of small units.
#![tactic(auto)]

// What the definitions promise.
mod laws;

// Types and small units, worked out.
mod types;
mod worked;

pub use laws::{every_program_stands, expressions_have_one_type};
pub use types::{
    addresses_are_of_places, operators_have_the_types_of_their_operands, pointers_keep_their_types,
};
pub use worked::{
    a_circle_is_told_by_its_names, a_root_is_defined, blocks_are_scopes,
    calls_name_functions_that_are_defined, inner_names_hide_outer_ones,
    labels_and_conditions_are_converted, names_are_declared_once, small_types_become_int,
    what_is_wrong_has_a_place,
};
