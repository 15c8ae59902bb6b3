//! Where the worst inputs of a program lie, by the path bounds of its analyses.
//!
//! A `PathBounder` is a bounder of `worst_inputs`: an area gives each row of inputs a range, and its bound is the path
//! bound that the analysis of the program finds for the rows with these ranges. Analyses keep the laws of bounders:
//! narrower ranges keep the rules of inputs, each run costs at most the path bound, and where each range has one number
//! the path bound is the run's cost. So the boxes of `worst_boxes` say where runs are dear.
#![tactic(auto)]

// The bounder, and the rows of an area.
mod bounder;
mod rows;

// The search.
mod boxes;

pub use bounder::PathBounder;
pub use boxes::worst_boxes;
