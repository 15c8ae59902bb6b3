//! What an analysis answers.

use domain_core::Event;
use flow_facts::Report;

/// What an analysis answers.
#[derive(Drop)]
pub enum Analysed {
    /// No place was left, and this is told of the runs. These events were applied, in order.
    Told(Report, Vec<Event>),
    /// The turns were used up. The first place that was left stands in this scope.
    Unbounded(u32),
}
