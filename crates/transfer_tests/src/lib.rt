//! Tests of abstract memories and of steps over them: `abstract_memory` and the crates that it stands on,
//! `step_statements`, and `abstract_step`. Without tests this library is empty.
//!
//! Memories, of one program (`program`), with values as texts (`values`):
//!
//! - `scripts`, `cells`: scripts of calls, and what each call tells; whether a cell is there. `sides`, `steps`: two memories, and
//!   the steps of a script on them.
//! - `addresses`, `frames`, `statements`: the calls of the crates between, one by one.
//!
//! Steps, of programs and inputs in a short notation (`sketch`):
//!
//! - `conditions`, `cases`: conditions of every comparison, single cases, and whole programs. `walk`, `told`: steps along chosen
//!   successors, and what is told of them.
#![tactic(auto)]

// Memories.
#[cfg(test)]
mod addresses;
#[cfg(test)]
mod cells;
#[cfg(test)]
mod frames;
#[cfg(test)]
mod program;
#[cfg(test)]
mod scripts;
#[cfg(test)]
mod sides;
#[cfg(test)]
mod statements;
#[cfg(test)]
mod steps;
#[cfg(test)]
mod values;

// Steps.
#[cfg(test)]
mod cases;
#[cfg(test)]
mod conditions;
#[cfg(test)]
mod sketch;
#[cfg(test)]
mod told;
#[cfg(test)]
mod walk;
