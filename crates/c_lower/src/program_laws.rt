//! What lowering promises for texts.

ghost use Rattle.c_lower.specs.Lowering.{SpelledProgramsAreRight, SpelledStartsAreRight};

use c_limits::{
    counted_units_have_spelled_names, spelled_units_are_counted, spelled_units_are_plain,
    spelled_units_have_few_labels,
};
use lowering_simulation::each_program_has_the_outcome_of_its_unit;

/// Where some text spells a unit and the checks of the unit pass, a checked program to which it is lowered has its
/// outcome for each input: an outcome of the unit with some number of turns is that of the run by nodes; a run that
/// is over after so many steps has the outcome of the unit with as many turns; and turns are used up for every number
/// exactly where the run never ends. So it is of each list of numbers inside the ranges of the program's input rows,
/// whose words one list of cells holds.
pub fn spelled_programs_have_the_outcome_of_their_unit()
    ensures cells { SpelledProgramsAreRight }
    ensures starts { SpelledStartsAreRight }
{
    spelled_units_are_counted();
    counted_units_have_spelled_names();
    spelled_units_are_plain();
    spelled_units_have_few_labels();
    each_program_has_the_outcome_of_its_unit();
}
