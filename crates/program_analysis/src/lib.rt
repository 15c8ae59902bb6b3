//! The analysis of a program: what is told of all its runs, or the scope in which the turns were used up.
//!
//! `set_costs` gives the nodes of an outline their costs, and `analyse` explores the program's graph with the
//! recorders of totals, loops, counts and pairs. What it finds is what a policy over the program's machine finds. A
//! report that it answers has the path bound of `report_soundness`, and beside it the certificate: the events of the
//! exploration, and the multipliers that show the bound. The laws say that a program has one analysis, what a report
//! promises of the program's runs, what its path bound is, and that an input alone is told exactly.
#![tactic(auto)]

// What is answered, without a path bound and with one.
mod analysed;
mod bounded;

// What nodes cost.
mod node_costs;

// The analysis.
mod analysing;
mod exploring;
mod fitting;

// What the definitions promise.
mod laws;

pub use analysing::analyse;
pub use bounded::BoundedAnalysis;
pub use laws::{
    a_program_has_one_analysis, a_program_has_one_bounded_analysis, an_input_alone_is_told_exactly,
    bounds_of_an_input_alone_agree, closed_explorations_have_totals, found_reports_are_right,
    parts_alone_are_told_exactly, parts_have_one_analysis, sound_reports_are_sound_for_the_program,
};
pub use node_costs::set_costs;
