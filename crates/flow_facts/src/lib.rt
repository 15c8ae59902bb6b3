//! Flow facts and the reports that hold them: what a program's runs may do, without the text.
//!
//! A fact says something of every run: how often a loop turns, how often a node occurs, which
//! nodes exclude one another. `holds` tests one fact on one run's trace, by the definition in
//! `specs/Facts.antt`. A report puts facts beside the program's nodes and scopes, the bounds that
//! follow from them, and on request a certificate by which both can be checked again.
#![tactic(auto)]

// What a fact says, and the order of facts.
mod fact;
mod order;

// What a report holds.
mod certificate;
mod report;

// The test of a fact on a trace.
mod executions;
mod iterations;
mod scopes;
mod span;
mod traces;

// What the definitions promise.
mod laws;

// Rows, worked out by hand.
mod worked;

pub use certificate::Cert;
pub use fact::{Fact, RunKind};
pub use laws::{dead_nodes_have_no_total, lines_order_facts, wider_facts_are_met};
pub use order::stands_before;
pub use report::{BoundWord, NodeLine, Report};
pub use traces::{holds, is_about};
pub use worked::{faults_have_their_codes, lines_stand_by_kind_and_then_by_numbers};
