//! The report of an exploration, made from its pool.
//!
//! `report` answers the report that `report_soundness` defines: the lines of nodes and scopes, the facts that
//! the books, the alarms and the stepped nodes tell, and the count bound. What the report promises of
//! runs is proved there.
#![tactic(auto)]

// The facts, kind by kind.
mod alarms;
mod counts;
mod loops;
mod pairs;
mod scopes;
mod totals;

// The report.
mod bound;
mod reports;
mod rows;

pub use reports::report;
