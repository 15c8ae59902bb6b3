//! Why the report of a closed exploration is sound, and stays so with its path bound.
//!
//! The books of totals, loops, counts and pairs tell facts, kind by kind, and each run that the books sum up meets
//! each of them. `told_report` is the report of what an exploration collected: of the books, the faults told at
//! each node, and the nodes that were stepped. Where no place of a pool is left, it is sound for each run of the
//! stepper's system.
//!
//! Its facts have what `path_bound` of `path_lp` asks for, and the path bound is at most the count bound.
//! `bounded_report` puts it in: nothing else of the report changes, some text spells it still, and each run that the
//! report is sound for costs at most the path bound. The multipliers that show it are handed on. This is the one call
//! that computes; the other functions do nothing, and their clauses are the laws.
#![tactic(auto)]

// The facts that books tell.
mod book_laws;

// The report of an exploration.
mod report_laws;

// What it has for a path bound.
mod bound_laws;

// The report with its path bound.
mod bounded_laws;
mod reports;

pub use book_laws::told_facts_are_met;
pub use bound_laws::{path_bounds_hold_of_runs, told_facts_bound_paths};
pub use bounded_laws::{
    a_run_at_the_count_bound_is_at_the_path_bound, bounded_reports_are_sound,
    closed_explorations_are_told,
};
pub use report_laws::{
    a_lone_run_is_told_exactly, analyses_agree, closed_explorations_are_sound,
    numbers_are_at_most_the_steps, told_reports_are_writable,
};
pub use reports::{BoundedReport, bounded_report};
