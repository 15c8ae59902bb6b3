//! What lowering promises.

ghost use Rattle.lowering_simulation.specs.Lowering.{LoweringIsRight, EachStartIsOfTheUnit};

use crate::leaf_laws::lowered_programs_have_the_units_outcome;
use alf_runs::active_frames_follow_the_call_path;
use lowering_layout::{
    each_object_has_its_frame, functions_keep_their_number, names_stand_for_their_frames,
    programs_are_laid_out,
};

/// Where a unit passes the checks and its names and its `&&` and `||` are as the grammar has them, a checked
/// program to which it is lowered has its outcome for each input: an outcome of the unit with some number of
/// turns is that of the run by nodes; a run that is over after so many steps has the outcome of the unit with
/// as many turns; and turns are used up for every number exactly where the run never ends. So it is of each
/// list of numbers inside the ranges of the program's input rows: just one list of cells of the unit holds the
/// words that the run starts with.
pub fn each_program_has_the_outcome_of_its_unit()
    ensures cells { LoweringIsRight }
    ensures starts { EachStartIsOfTheUnit }
{
    active_frames_follow_the_call_path();
    each_object_has_its_frame();
    functions_keep_their_number();
    names_stand_for_their_frames();
    programs_are_laid_out();
    lowered_programs_have_the_units_outcome();
}
