//! The abstract memory of a run, as rules with their laws.
//!
//! A memory keeps bytes and cells of frames. A byte knows the words that its newest store may have left in it; a
//! cell knows more, the values that one store of exactly this cell may have left. Loads, stores, functions entered
//! and left, joins and pins are definitions over any sets of values (`ValueSets`), of which abstract values are
//! one. It is proved of them that a memory covers what a run's memory holds, that it is exact where one run is
//! followed, and that a value joined with itself is the value, so that a join may leave alone what both sides
//! share.
//!
//! The functions do nothing, and their clauses are the laws. They rest on the histories of `alf_ops` and on the
//! rules of values in `pointer_rules` and `strided_rules`.
#![tactic(auto)]

// What a memory promises of runs.
mod laws;

// Values joined with themselves.
mod join_laws;

// Stores and loads, worked out.
mod worked;

pub use join_laws::a_join_with_itself_changes_nothing;
pub use laws::{
    a_fresh_memory_is_sharp, a_join_covers_both_sides, a_load_from_a_sharp_frame_is_exact,
    a_load_gathers_its_results, a_load_is_among_the_results, a_pin_covers,
    a_sharp_frame_stays_sharp, a_sharp_memory_stays_sharp, a_store_covers,
    abstract_values_suit_a_memory, an_address_is_told, calls_keep_covering,
    each_call_keeps_the_sizes, one_address_is_told_alone,
};
pub use worked::{a_strong_store_is_read_by_bytes, a_weak_store_joins, an_address_means_its_cells};
