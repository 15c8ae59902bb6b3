//! The check of a report of unknown origin, for a program.
//!
//! `objection_to_report` answers the first thing that speaks against a report, by the events and the multipliers of its
//! certificate. Where nothing does, the report is sound for each run of the program from inputs inside the ranges:
//! whoever made it, and whatever its events are, need not be trusted. A report has one answer, whatever parts the code
//! has the program in.
#![tactic(auto)]

// The check.
mod checking;

// What its definitions promise.
mod laws;

pub use checking::objection_to_report;
pub use laws::{a_report_has_one_check, accepted_reports_are_sound_for_the_program};
