//! Instruction caches, and what the runs of a program cost with their misses.
//!
//! A cache has sets of ways, and drops of a set the line that was used least recently. `notes` writes down for an
//! outline the shape of a cache and the lines of each node. `Misses` is the recorder of the must analysis (Ferdinand
//! and Wilhelm 1999): it keeps the lines that are surely cached, whatever the cache had at first, each with an upper
//! bound on its age, and the greatest cost of a run plus the penalty of each access that may miss. It has the laws of
//! `Lattice` and `Recorder` of `domain_core`, and what its calls answer is said by `miss_recording`.
#![tactic(auto)]

// What a cache is like.
mod shape;

// What an outline is told of it.
mod outlines;

// What is kept of runs.
mod misses;
mod row;

// What the definitions promise, and caches that are worked out.
mod laws;
mod worked;

pub use laws::{
    bounds_follow_the_rule, contents_stay_contents, the_lines_of_a_part_are_those_of_its_bytes,
    traces_are_turned_runs,
};
pub use misses::{Misses, MissesBook};
pub use outlines::notes;
pub use shape::Shape;
pub use worked::{accesses_hit_what_is_there, lines_have_their_sets, parts_have_their_lines};
