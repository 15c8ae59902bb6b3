//! The analysis of a program with an instruction cache.
//!
//! `set_lines` writes the cache and the lines of each node into the notes of the program's outline, and `analyse`
//! explores the program's graph with the recorder `Misses`. What it finds is what a policy over the program's machine
//! finds with the rule of that recorder. Where it tells of hits and a bound, each run of the program ends, costs with
//! the penalties of its misses no more than the bound, and hits at each node that is told, whatever the cache had at
//! first. The law says that a program has one such answer.
#![tactic(auto)]

// What the outline is told.
mod lines;

// The analysis.
mod exploring;

// What the definitions promise.
mod laws;

pub use exploring::analyse;
pub use laws::{a_program_has_one_cache_analysis, sound_lines_are_sound_for_the_program};
pub use lines::set_lines;
