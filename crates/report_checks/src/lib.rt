//! The check of a report of unknown origin, by its certificate.
//!
//! `objection_to` applies the events of the certificate, whatever made them, compares what they collect with the lines
//! of the report, and tests its multipliers. What it answers is defined in `report_objections`; where nothing speaks
//! against a report, it is sound.
#![tactic(auto)]

// The form of a report.
mod shaping;

// Its events.
mod applying;

// What was collected, against its lines.
mod alarms;
mod bounds;
mod facts;

// All of it.
mod checks;

pub use checks::objection_to;
pub use shaping::is_shaped;
