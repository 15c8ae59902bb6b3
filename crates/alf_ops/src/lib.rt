//! The operators of ALF on words, and what a run stores and loads.
//!
//! `apply` gives the word of an operator, `shape` and `operand` the sizes of its result and its
//! operands, `find` the operator that a name stands for. Their meaning is stated as formulas on
//! whole numbers, apart from the code, which works on machine words. `Value`, `RunFault` and
//! `History` are what runs are made of: what a load gives after a history, and what an operator
//! gives at pointers, are defined here for every layer above. No call takes memory. The rules
//! stand in words in `docs/formats/alf-operators.md`.
#![tactic(auto)]

// The operators, the table of their names, and the layouts of its rows.
mod layout;
mod operator;
mod table;

// The sizes of an operator and its value, over the arithmetic of words.
mod divide;
mod operations;
mod sizes;
mod words;

// What a run is made of, and operators at its values.
mod history;
mod loads;
mod outcomes;

// What the definitions promise.
mod laws;

pub use divide::Divide;
pub use history::{FrameShape, History, RunEvent, RunFault, Value};
pub use laws::{
    a_byte_comes_from_the_newest_store, a_load_gives_what_was_stored, a_load_reads_its_bytes,
    a_store_leaves_other_cells, an_address_is_tested_in_order,
    entering_empties_the_frames_of_the_function, leaving_ends_the_frames_of_the_function,
    operands_fault_from_left_to_right, operators_have_their_own_names, outcomes_have_their_size,
    pointers_are_compared_within_a_frame, pointers_have_the_size_of_an_address,
    pointers_stand_where_a_rule_takes_them, sound_histories_give_values_that_fit,
    the_table_decides_at_words, words_are_added_and_divided, words_are_chosen_and_shifted,
    words_are_cut_and_computed, words_are_ordered_as_they_read, words_are_read_in_twos_complement,
};
pub use loads::load_after;
pub use operations::apply;
pub use operator::Op;
pub use outcomes::apply_to_values;
pub use sizes::{fits, operand, shape, values_fit};
pub use table::{OPS, OpRow, find, rows, spelling};
pub use words::{distance, is_negative, negated};
