//! Tests of facts, of reports as texts, and of path bounds: `flow_facts`, `fact_text`, `dual_check` and `path_lp`.
//!
//! - `traces`, `reports`: which traces meet which facts, one by one and as whole reports. `order`: the order of facts.
//! - `lines`, `further_lines`, `swaps`: reports with another text in place of a line, or with two lines in each other's
//!   place, and what is told of them. `texts`: reports that are cut short, or printed again.
//! - `duals`: rows that were written out by hand, and verdicts on multipliers. `bounds`: path bounds of small programs.
//! - `tables`: tables of tests as text, and what answers their rows. `facts`, `edits`, `rows`: facts in a short notation,
//!   reports made of a report, and rows, verdicts and bounds as text.
//!
//! Without tests this library has `ready_bound` alone, which `bench/paths` takes too.
#![tactic(auto)]

// What the tests share.
#[cfg(test)]
mod edits;
#[cfg(test)]
mod facts;
#[cfg(test)]
mod rows;
#[cfg(test)]
mod tables;

// Facts on traces.
#[cfg(test)]
mod order;
#[cfg(test)]
mod reports;
#[cfg(test)]
mod traces;

// Reports as texts.
#[cfg(test)]
mod further_lines;
#[cfg(test)]
mod lines;
#[cfg(test)]
mod swaps;
#[cfg(test)]
mod texts;

// Rows and verdicts.
#[cfg(test)]
mod duals;

// Path bounds, where they may be asked for.
#[cfg(test)]
mod bounds;
mod ready;

pub use ready::ready_bound;
