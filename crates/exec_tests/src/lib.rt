//! Tests of explorations, of what they record, and of their reports: `abstract_exec`, `flow_recorders`, `pair_recorder`
//! and `flow_reports`, at the flow charts and walks of `exec_toys`. Without tests this library is empty.
//!
//! - `policies`: whole explorations of small flow charts by each policy.
//! - `events`: events one by one, allowed and not.
//! - `reports`: the reports of explorations, as text.
//! - `runs`: what books tell of runs that are written by hand.
//! - `charts`, `told`, `books`: flow charts, what a pool tells, and what books tell, as text.
//! - `words`: parts of a row.
#![tactic(auto)]

// Parts of rows.
#[cfg(test)]
mod words;

// Explorations.
#[cfg(test)]
mod charts;
#[cfg(test)]
mod events;
#[cfg(test)]
mod policies;
#[cfg(test)]
mod reports;
#[cfg(test)]
mod told;

// Runs and their books.
#[cfg(test)]
mod books;
#[cfg(test)]
mod runs;
