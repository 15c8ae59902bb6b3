//! What a unit of C is lowered to, as definitions: expressions, conditions, statements, frames and whole
//! programs of ALF, by cases on the trees of the unit. Here is no code but functions that do nothing, whose
//! clauses are what comes of small units.
#![tactic(auto)]

// Small units, worked out.
mod worked;

pub use worked::{
    a_guard_is_two_switches, a_loop_tests_at_its_head, a_pointer_moves_by_bytes,
    a_second_declaration_has_a_frame_of_its_own, cases_are_targets, types_choose_operators,
};
