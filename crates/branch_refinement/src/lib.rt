//! The arms of a switch over an abstract memory: which there are, and what each tells of memory.
//!
//! A run that takes an arm tells something of what the switch read: that a place has one of the arm's words, or
//! that a comparison between two sides holds, or does not. What the switch's expression tells is found once for all
//! arms: the place that it is, or the sides that it compares, with their places and words. Each arm then copies the
//! memory and pins those places. The call gives exactly the arms of `transfer_rules`, of which it is proved there
//! that each run keeps its arm.
#![tactic(auto)]

// What the expression tells of memory, and of which cells.
mod places;
mod refinements;
mod relations;
mod sides;
mod telling;

// The memories of arms, and the arms.
mod arms;
mod pins;

pub use arms::switch_arms;
