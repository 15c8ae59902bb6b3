//! Tests of texts of ALF, of their checks, graphs and outlines, of memories, tables and runs: `alf_text`, `alf_faults`,
//! `alf_check`, `flow_graph`, `scope_graph`, `alf_values`, `cost_table`, `response_time` and `alf_interp`. Without
//! tests this library is empty.
//!
//! - `printed_texts`: texts that are read and printed.
//! - `names`, `faults`, `checks`: names, each fault of names and sizes, and whole checks. `sketch`: programs as values, from a
//!   short notation.
//! - `graphs`, `limits`, `outlines`: graphs of small programs, programs at the limits, and outlines.
//! - `memory`: scripts of stores and loads, and what each gives.
//! - `costs`, `inputs`: files of costs and of inputs. `tables`: such files in a short notation, and what is told of them.
//! - `tasks`: tasks files. `response_times`: response times of task sets. `simulation`: task sets unit by unit.
//! - `runs`: runs of small programs. `notation`: what words of a short notation stand for, and the words of faults.
#![tactic(auto)]

// Texts.
#[cfg(test)]
mod printed_texts;

// Names, faults of names and sizes, and checks.
#[cfg(test)]
mod checks;
#[cfg(test)]
mod faults;
#[cfg(test)]
mod names;
#[cfg(test)]
mod sketch;

// Graphs and outlines.
#[cfg(test)]
mod graphs;
#[cfg(test)]
mod limits;
#[cfg(test)]
mod outlines;

// Memories and runs.
#[cfg(test)]
mod memory;
#[cfg(test)]
mod notation;
#[cfg(test)]
mod runs;

// Files of costs and of inputs.
#[cfg(test)]
mod costs;
#[cfg(test)]
mod inputs;
#[cfg(test)]
mod tables;

// Tasks files, and response times.
#[cfg(test)]
mod response_times;
#[cfg(test)]
mod simulation;
#[cfg(test)]
mod tasks;
