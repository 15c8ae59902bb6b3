//! Tests of the top call `run`, with files and a sink in memory. Without tests this library is empty.
//!
//! - `words`: words that are no command, and the options of each command. `codes`: the exit code of each status.
//! - `texts`, `tokens`, `c_texts`: texts of ALF and of C, read, printed and refused. `faults`: programs and tables that
//!   are refused.
//! - `reports`, `ranges`, `certificates`: `analyse` without inputs and with inputs, and with `--cert`. `runs`: `run`.
//! - `checks`: `check`, of reports that are accepted and refused. `migrations`: `migrate`. `replays`: `replay`.
//! - `worst`: boxes of inputs.
//! - `caches`: runs with an instruction cache. `tasks`: response times.
//! - `made`: programs that are made. `sizes`: programs and runs of some size.
//! - `damage`: files that are damaged or too long, reads and writes that fail.
//! - `tables`, `cases`, `notation`, `programs`: tables of tests, words and files as text and what answers them, programs
//!   in a short notation, and programs of C as ALF.
#![tactic(auto)]

// What the tests share.
#[cfg(test)]
mod cases;
#[cfg(test)]
mod notation;
#[cfg(test)]
mod programs;
#[cfg(test)]
mod tables;

// Words and codes.
#[cfg(test)]
mod codes;
#[cfg(test)]
mod words;

// Texts, and what of them is refused.
#[cfg(test)]
mod c_texts;
#[cfg(test)]
mod faults;
#[cfg(test)]
mod texts;
#[cfg(test)]
mod tokens;

// Reports and runs.
#[cfg(test)]
mod caches;
#[cfg(test)]
mod certificates;
#[cfg(test)]
mod checks;
#[cfg(test)]
mod made;
#[cfg(test)]
mod migrations;
#[cfg(test)]
mod ranges;
#[cfg(test)]
mod replays;
#[cfg(test)]
mod reports;
#[cfg(test)]
mod runs;
#[cfg(test)]
mod sizes;
#[cfg(test)]
mod worst;

// Response times.
#[cfg(test)]
mod tasks;

// Damaged files, and devices that fail.
#[cfg(test)]
mod damage;
