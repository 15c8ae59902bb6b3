//! Progressions of whole numbers lo, lo + step, .., hi: sets in four words of the machine.
//!
//! What arithmetic makes of the numbers of one is an image, again a progression; a part is what is
//! left of one from a number on, up to a number or without an end; pieces are the numbers modulo a
//! power of 2. Each call gives the progression that a definition says, and the laws say what it has.
//! No call takes memory.
#![tactic(auto)]

// A progression, its members, and the one round two.
mod ends;
mod hulls;

// What arithmetic makes of one, and what is left of one.
mod images;
mod parts;
mod pieces;

// Tests of what the calls ask for.
mod conditions;

// Laws that the definitions keep.
mod laws;

pub use ends::{Pieces, Progression};
pub use laws::{hulls_are_least, images_have_all, parts_are_exact, pieces_are_exact};
