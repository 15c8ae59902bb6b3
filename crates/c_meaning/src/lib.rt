//! What C programs mean, as definitions. What expressions give, what statements do and how a whole program
//! ends is said by cases on the trees of a unit, over a history of stores with one frame for each object. A
//! statement is told with a number: each loop makes at most so many turns. Here is no code but functions that
//! do nothing, whose clauses are laws of the definitions and what comes of small programs.
#![tactic(auto)]

// What the definitions promise.
mod laws;

// Operators and small programs, worked out.
mod operators;
mod worked;

pub use laws::{more_turns_keep_an_outcome, no_call_is_too_deep};
pub use operators::{
    bits_are_combined, casts_keep_the_lowest_bits, conditions_are_zero_or_one,
    numbers_are_ordered_with_their_signs, pointers_are_placed_in_their_objects,
    quotients_go_toward_zero, shifts_move_bits,
};
pub use worked::{
    a_case_goes_on_into_the_next, a_guard_keeps_a_division_from_its_fault,
    a_loop_without_end_uses_up_its_turns, a_pointer_goes_down_an_array,
    a_result_is_cut_to_its_type, an_integer_is_read_byte_by_byte, loads_fault_as_runs_do,
    numbers_are_summed_up,
};
