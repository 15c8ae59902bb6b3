//! Recorders of how often runs visit nodes: in a whole run, in one execution of scopes, and two recorders side by side.
//!
//! `Totals` counts the visits of each node in a whole run. `Visits` counts, in each execution of scopes, the visits
//! of nodes in them, and which these are the trait `Counted` tells: `Loops` is that of the header of each scope, and
//! `Counts` that of the other nodes of loops. `Both` makes one recorder of two. Each has the laws of `Lattice` and
//! `Recorder` of `domain_core`, and what its calls answer is said by the records of `recorder_rules`. An execution is
//! over where a step leaves its scope: `left_scopes` finds those scopes by the walk up from the step's source.
#![tactic(auto)]

// The scopes that a step leaves.
mod leaving;

// Counts in a whole run.
mod ends;
mod few;
mod small;
mod span_list;
mod spans;
mod totals;

// Counts in the executions of scopes.
mod begun;
mod chains;
mod counted;
mod tallies;
mod visits;
mod walked;

// What of an outline is counted so.
mod counts;
mod loops;

// Two recorders side by side.
mod both;

// Rows, worked out by hand.
mod worked;

pub use both::{Both, BothBook};
pub use counted::Counted;
pub use counts::{Counts, CountsBook, OtherNodes};
pub use leaving::left_scopes;
pub use loops::{EachHeader, Loops, LoopsBook};
pub use totals::{Totals, TotalsBook};
pub use visits::{Visits, VisitsBook};
pub use worked::{lists_have_room, wide_counts_are_past_a_byte};
