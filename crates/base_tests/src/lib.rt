//! Tests of files and names, of words of the command line, of operators, of numbers, of walks and of searches for worst
//! inputs: `flow_base`, `sweet_words`, `alf_ops`, `whole_numbers`, `progressions`, `graph_walks` and `worst_inputs`.
//! Without tests this library has the definitions of `bound_table` alone.
//!
//! - `tables`: tables of tests as text, and what answers their rows.
//! - `outside`: digits and names, shelves and sinks. `streams`: readers and writers that take a piece at a time.
//! - `words`: words that are a command, and words that are none.
//! - `operators`, `values`, `loads`: sizes, values of operators, operators at pointers, and loads after events.
//! - `numbers`: quotients, rests and common divisors; progressions.
//! - `walks`: walks over tables, what is reached, and ranks and cycles of calls.
//! - `searches`: worst inputs over a table of bounds, `bound_table`, which is a bounder that knows nothing of programs.
#![tactic(auto)]

// What the tests share.
#[cfg(test)]
mod tables;

// Files and words.
#[cfg(test)]
mod outside;
#[cfg(test)]
mod streams;
#[cfg(test)]
mod words;

// Operators and their values, loads and stores.
#[cfg(test)]
mod loads;
#[cfg(test)]
mod operators;
#[cfg(test)]
mod values;

// Numbers.
#[cfg(test)]
mod numbers;

// Walks over tables, and cycles of calls.
#[cfg(test)]
mod walks;

// Searches for worst inputs over a table of bounds.
#[cfg(test)]
mod bound_table;
#[cfg(test)]
mod searches;
