//! Tests of the lowering from C to ALF, by the top call over files in memory. Without tests this library is empty.
//!
//! - `expressions`, `statements`, `units`: what statements and units are lowered to, in the notation of `notation`.
//! - `programs`: what programs do, as gcc has it.
//! - `faults`: what is refused. `reports`: what `analyse`, `run` and `lower` tell of files of C.
//! - `answers`: words, files and answers.
#![tactic(auto)]

// What the tests share.
#[cfg(test)]
mod answers;
#[cfg(test)]
mod notation;

// What statements and units are lowered to.
#[cfg(test)]
mod expressions;
#[cfg(test)]
mod statements;
#[cfg(test)]
mod units;

// What programs do, what is refused, and what commands tell.
#[cfg(test)]
mod faults;
#[cfg(test)]
mod programs;
#[cfg(test)]
mod reports;
