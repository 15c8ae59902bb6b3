//! The objects and the functions of a unit of C, with the names that they have once the unit is lowered.
//!
//! `Table` is made of a unit once. It gives the frame of what a token declares, and what a function gives and
//! takes by its name. `numbered_name` makes names of labels and of results. `c_meaning` says which objects there
//! are, and `c_lowered` what their frames are called; tokens and functions are looked up by `c_scopes`.
#![tactic(auto)]

// Objects and their sizes, in the order of the text.
mod locals;
mod object;
mod objects;
mod sizes;

// What functions give and take.
mod signature;

// Names of frames and labels.
mod frames;
mod names;

// All of a unit.
mod table;

pub use names::numbered_name;
pub use object::Object;
pub use sizes::{bits_of_local, bits_of_scalar, count_at, parameter_token};
pub use table::Table;
