//! One run of a program, held against the lines of a report.
//!
//! `replay` makes the one run from given values and counts it with the recorders of an exploration. It tells what the
//! run costs, or the first thing that speaks against the report: a line, a missing alarm or a bound that the run does
//! not keep. What it tells is defined in `specs/Replays`, and is one thing.
#![tactic(auto)]

// The values.
mod values;

// The run.
mod allowed;
mod walked;
mod walking;

// What is told of it.
mod ending;
mod meeting;
mod replaying;

// Laws, and rows worked out by hand.
mod laws;
mod worked;

pub use laws::a_replay_tells_one_thing;
pub use replaying::replay;
pub use worked::the_first_thing_is_told_of_a_run;
