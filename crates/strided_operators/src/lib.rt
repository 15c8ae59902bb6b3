//! What operators give at progressions, and joins of it over the pieces of values.
//!
//! Each call gives exactly what the definition of `strided_rules` says. No call takes memory, and none
//! can fail.
#![tactic(auto)]

// Progressions in normal form at a size, and joins of them.
mod joining;
mod placing;
mod shifts;

// Joins over pieces, once for all rules.
mod over;

// Words that are masks, and parts, ends and tests of pieces.
mod extremes;
mod kept_parts;
mod masks;
mod meeting;
mod members;
mod piece_tests;

// The rules of operators of one operand, and of two.
mod pair_rules;
mod rules;

pub use extremes::{greatest_of, least_of};
pub use joining::joined;
pub use kept_parts::{between, without_end};
pub use masks::mask_size;
pub use members::has_number;
pub use over::{PairRule, Rule, added, each, each_pair};
pub use pair_rules::{Above, Greater, Lesser, Products, Ratios};
pub use piece_tests::{AtMost, Below, Meet, PieceTest, some_choice};
pub use placing::{normed, power, whole};
pub use rules::{Rests, Same, Shifts, SignedRests, TowardZero};
pub use shifts::shifted_left;
