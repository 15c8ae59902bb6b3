//! Frames of ALF for the objects and calls of a unit of C, and what the globals hold at first.
//!
//! Each function gives the list that `c_lowered` defines under the same name: the frames of globals, parameters,
//! locals and results, the frames that are exported, and the first words of globals. Names and sizes come from
//! `object_layout`.
#![tactic(auto)]

// Globals: their frames, those that are exported, and what they hold at first.
mod exports;
mod globals;
mod initial;

// Functions: where frames are made, and the frames of one.
mod frames;
mod place;

pub use exports::exports_of;
pub use frames::{frames_in, parameter_frames};
pub use globals::global_frames;
pub use initial::initial_values;
pub use place::Place;
