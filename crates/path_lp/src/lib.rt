//! The path bound of an outline and a report's facts, by a dual simplex method in whole numbers.
//!
//! `path_bound` makes the rows (of `dual_check`), solves them, and tests the multipliers: the bound is what the
//! test answers for them. Its word is `Least` where the rule's run ended so, and `Stopped` where it did not.
//! `solve` pivots the program's tableau by the rule of `simplex_rules` until no right side is negative, a number is
//! wide or the limit is reached, and hands out multipliers, and at the end a point. Who reads a bound needs none of
//! this, since the test of `dual_check` decides. What is promised of the answer holds of each path bound that the
//! rule tells: that is a law.
#![tactic(auto)]

// What is told of a run.
mod solved;

// What a tableau hands out.
mod handing;
mod reading;

// The run.
mod running;
mod stepping;

// The bound.
mod bounds;

// What the definitions promise.
mod laws;

pub use bounds::path_bound;
pub use laws::told_bounds_are_right;
pub use running::solve;
pub use solved::{PathBound, SolveEnd, Solved};
