//! Grammars by parts, whose rules carry their proofs, and one reader for lists and chains of any grammar.
//!
//! A rule says what it spells, where a text departs from it, and what reading computes, and it is a proof that
//! these agree. So a rule that is made of rules is exact by its type, and each text has exactly one meaning: what
//! it spells, or its first departure. "First" is said once, where one part follows another. A Bool in the type of
//! a rule tells that it always takes some of the text. A list takes such rules alone, and where it goes on is an
//! argument of the list.
//!
//! In a chain each part takes in the value so far, as in operators of one rank that group from left to right,
//! where a limit or a fault hangs on what was read before. The code's side of a list (`many`) and of a chain
//! (`grow`) is written here once, for readers of any text; neither tokens nor faults are known.
#![tactic(auto)]

// Lists.
mod sequence;

// Chains.
mod links;

// Rows, worked out by hand.
mod worked;

pub use links::{Link, grow};
pub use sequence::{Part, many};
pub use worked::parts_follow_one_another;
