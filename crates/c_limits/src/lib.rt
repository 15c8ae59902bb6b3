//! What the limits of the grammar of C mean for a unit that some text spells, as laws.
//!
//! The grammar counts functions, frames and elements of arrays while a text is read, bounds how deep operators are
//! nested, and lets `&&` and `||` stand in conditions alone. Here what each rule of `c_grammar` spells is measured
//! against what it takes of the room and of the tokens: so a unit that some text spells is counted (`IsCounted` of
//! `c_rules`), its functions allocate few labels, and its conditions are plain.
//!
//! What follows of counted units are the premises of the laws of lowering: names are spelled, objects are small,
//! frames are few, and so are the bytes of the lowered program. `c_lower` draws on them for each text.
#![tactic(auto)]

// What the rules count while a text is read.
mod count_laws;

// Labels, weighed against tokens.
mod label_laws;

// Where `&&` and `||` stand, and how deep operators are nested.
mod plain_laws;

// Names and frames of a counted unit.
mod name_laws;

// Sizes of its objects, and the bytes of its lowered program.
mod size_laws;

pub use count_laws::{
    expressions_are_shallow, spelled_units_are_counted, statements_count_what_they_declare,
};
pub use label_laws::spelled_units_have_few_labels;
pub use name_laws::{counted_units_have_few_frames, counted_units_have_spelled_names};
pub use plain_laws::{spelled_units_are_plain, spelled_units_are_shallow};
pub use size_laws::{counted_units_are_small, lowered_programs_have_few_bytes};
