//! Certificates.

use domain_core::Event;

/// What lets a report be checked again: the events of an exploration, by which its facts are
/// found, and multipliers of the rows that the report makes, by which its bound is.
///
/// A certificate may have millions of events.
#[derive(Drop)]
pub struct Cert {
    /// The events in their order.
    pub events: Vec<Event>,
    /// What each multiplier is to be divided by. At least 1 in a report that some text spells.
    pub scale: i128,
    /// One number for each row, in their order.
    pub multipliers: Vec<i128>,
}
