//! Lowered programs pass the checks of ALF, as laws.
//!
//! Each expression of a lowered program is a term: it has the size that is wanted, can be written, is not too
//! deep, and names frames that its function sees. Each item stands: its labels are the function's own, its terms
//! have the right sizes, and its calls go to functions that are there. So the lowered program of a unit that the
//! checks of C pass, and that is measured, can be written, and no part of it has a fault by `alf_faults`.
//!
//! Programs are those of `c_lowered`. That names differ and frames lie where they should comes from
//! `lowering_layout`, and that labels stand once from `lowering_simulation`; `c_limits` shows that each unit is
//! measured that some text spells.
#![tactic(auto)]

// Expressions of a lowered program.
mod term_laws;

// Items, and the whole program.
mod text_laws;

pub use term_laws::{constants_are_words, values_are_terms};
pub use text_laws::measured_programs_pass;
