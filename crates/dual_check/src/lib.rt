//! The linear program of an outline and a report's facts, by terms, and the test of multipliers on it.
//!
//! `rows` makes the program that `ipet_rows` defines; `verify` gives the verdict that `ipet_rows`
//! defines. What a verdict promises, and that a run's counts are a point of the program, are laws of
//! those two crates.
#![tactic(auto)]

// Rows by terms.
mod row;
mod system;

// Columns and what rows weigh.
mod alarms;
mod column;
mod constraint;
mod group;
mod inside;
mod outline_columns;

// The program of an outline and facts: a row looks at the columns that touch its nodes, and the
// terms by columns are made from those of the rows.
mod by_columns;
mod firsts;
mod made_terms;
mod places;
mod system_made;
mod touching;

// The test of multipliers, part by part.
mod columns;
mod duals;
mod products;
mod right_sides;
mod signs;

// What a verdict promises of runs.
mod laws;

// Rows, worked out by hand.
mod worked;

pub use column::Column;
pub use constraint::Constraint;
pub use duals::{Duals, verify};
pub use ipet_rows::Verdict;
pub use laws::verdicts_bound_each_run;
pub use system::Rows;
pub use system_made::rows;
pub use worked::rows_and_openings_stand_in_their_order;
