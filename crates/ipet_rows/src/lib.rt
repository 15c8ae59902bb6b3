//! The linear program of implicit path enumeration (Li and Malik 1995), and what multipliers bound.
//!
//! An outline and a report's facts make the program: a column for each way that leads on from a node, and rows for
//! the flow and for each fact. How often a run that meets the facts uses each column is a point that meets the
//! rows, and it is worth the run's cost. Multipliers of the rows bound every such point. A verdict on them is the
//! first of the tests in a stated order; where it is `Holds`, each point that meets the rows is worth less than one
//! more than the number that it tells. Whoever found the multipliers is not trusted.
//!
//! The functions do nothing, and their clauses are the laws; `dual_check` makes the rows and tests multipliers by
//! them.
#![tactic(auto)]

// The program, and the point that a run is.
mod path_laws;

// Small outlines, worked out.
mod worked;

// What multipliers bound.
mod dual_laws;
mod verdict;

pub use dual_laws::verdicts_bound_each_point;
pub use path_laws::{
    column_counts_are_feasible, rows_weigh_what_is_used, runs_flow, terms_are_weights,
};
pub use verdict::Verdict;
pub use worked::{numbers_have_128_bits, small_outlines_have_their_rows, small_sums_come_out};
