//! The names and the frames of lowered objects and functions, as laws.
//!
//! No two frames of a lowered program have one name, nor have two functions, or two labels of a function, and each
//! name is one of ALF. So a row of the program's table that has the name of an object is its row, and each object
//! has a frame of its own, which is found whichever way its number was asked for. Each declaration of a function
//! has the type of its definition, wherever a function's block sees it.
//!
//! `lowering_values` says what code of the lowered program computes where frames stand, names are numbered and the
//! program is laid out so. Here is that each lowered program is so whose unit has names as the grammar has them;
//! nothing is said here of values.
#![tactic(auto)]

// Declarations of functions, and their definitions.
mod function_laws;

// Names of frames, functions, labels and objects.
mod name_laws;

// Where the objects lie among the frames of the lowered program.
mod frame_laws;

pub use frame_laws::{
    each_object_has_its_frame, functions_keep_their_number, names_stand_for_their_frames,
    programs_are_laid_out,
};
pub use function_laws::declarations_agree_with_definitions;
pub use name_laws::{
    all_frames_have_names_of_their_own, each_frame_is_an_objects_or_a_results,
    labels_are_told_apart, names_can_be_written, spelled_programs_have_names,
};
