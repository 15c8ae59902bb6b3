//! Programs with numbers in place of names.
//!
//! Frames, functions and blocks are numbered in the order of the text, from 0. The global frames
//! come before those of the functions. A function's blocks are numbered by themselves.
#![tactic(auto)]

// What a checked program is made of.
mod rows;

// Numbers of names.
mod count;
mod lookup;

// Frames, and what they hold at first.
mod tables;

// Blocks.
mod body;
mod cut;
mod endings;
mod expressions;
mod statements;

// Programs.
mod numbering;
mod program;

// Checks.
mod calls;
mod checking;
mod fault;

// Rows, worked out by hand.
mod worked;

pub use checking::check;
pub use fault::CheckFault;
pub use program::{Checked, number};
pub use rows::{Act, Block, BlockEnd, FrameRow, FuncRow, InitRow, InputRow, Term};
pub use worked::{items_are_cut_into_blocks, names_have_their_numbers};
