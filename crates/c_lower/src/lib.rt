//! Programs of C, lowered to programs of ALF, and that lowering is right for each text of C.
//!
//! `lower_text` makes of a unit that passes the checks the program of ALF that `c_lowered` says, and `lower`
//! checks that program. Whatever passes the checks of C passes those of ALF, and each run of what is made has the
//! outcome of the unit, faults and endless runs included.
//!
//! `lower_unit` makes the program: it walks over the unit once for its objects (`object_layout`), once for what
//! globals hold, and for each function once for its frames (`frame_lowering`) and once for its items
//! (`statement_lowering`). The laws of lowering (`lowering_checks`, `lowering_simulation`) have premises on the
//! unit; `c_limits` shows that each unit keeps them that some text spells.
#![tactic(auto)]

// The program of a unit: functions, and what is known at their heads.
mod functions;
mod heads;
mod lowering;

// What lowering promises of each text of C.
mod program_laws;
mod text_laws;

// Programs with names, and checked programs with numbers in place of names.
mod programs;
mod texts;

pub use lowering::lower_unit;
pub use program_laws::spelled_programs_have_the_outcome_of_their_unit;
pub use programs::lower;
pub use text_laws::{lowered_programs_pass, spelled_programs_pass};
pub use texts::lower_text;
