//! What an exploration answers.

use domain_core::Event;

/// How an exploration went.
#[derive(Debug, PartialEq, Eq, Drop)]
pub enum Explored {
    /// No place is left. These events were applied, in order.
    Closed(Vec<Event>),
    /// The turns were used up and places are left; the first one stands in this scope.
    Left(u32),
}
