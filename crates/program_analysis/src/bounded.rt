//! What an analysis with a path bound answers.

use flow_facts::{Cert, Report};

/// What an analysis with a path bound answers.
#[derive(Drop)]
pub enum BoundedAnalysis {
    /// No place was left: the report with its path bound, and beside it what lets it be checked again.
    Told(Report, Cert),
    /// The turns were used up. The first place that was left stands in this scope.
    Unbounded(u32),
}
