//! What is true of the frames of each lowered program, as clauses of functions that do nothing.

ghost use Rattle.lowering_layout.specs.FrameLaws.{FramesHavePlaces, GlobalFramesAreObjects, FunctionsAreLowered};
ghost use Rattle.lowering_layout.specs.FrameLaws.{NamesAreNumbered, ProgramsAreLaidOut};

use lowering_values::{constants_agree, events_keep_agreement};

/// Each object has a frame of its own, with its owner and its size, and each global frame is that of an
/// object.
pub fn each_object_has_its_frame()
    ensures places { FramesHavePlaces }
    ensures globals { GlobalFramesAreObjects }
{}

/// A function keeps its number.
pub fn functions_keep_their_number()
    ensures { FunctionsAreLowered }
{}

/// A name in a function's code stands for the frame of its object, or for that of a result.
pub fn names_stand_for_their_frames()
    ensures { NamesAreNumbered }
{}

/// The arguments of functions, what is exported, and what globals hold at first lie where the objects
/// lie, whatever the root is.
pub fn programs_are_laid_out()
    ensures { ProgramsAreLaidOut }
{
    events_keep_agreement();
    constants_agree();
}
