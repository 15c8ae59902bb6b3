//! What lowered programs promise.

ghost use Rattle.lowering_simulation.specs.Correct.{LoweredProgramsHaveTheUnitsOutcome};

use crate::run_laws::runs_have_the_units_outcome;
use item_runs::checked_programs_follow_their_items;
use lowering_values::{
    arguments_agree, constants_agree, conversions_agree, events_keep_agreement, expressions_agree,
    functions_are_entered_alike, objects_have_their_address, operators_agree, outputs_agree,
    results_are_kept, starts_agree, stores_agree, tests_agree, values_fit,
};

/// A checked program to which a unit is lowered, whose frames lie where the unit's objects have them, has the outcome
/// of the unit for each input: an outcome of the unit with some number of turns is that of the run by nodes; a run
/// that is over after so many steps has the outcome of the unit with as many turns; where turns are used up the run
/// has more nodes than turns; and turns are used up for every number exactly where the run never ends.
pub fn lowered_programs_have_the_units_outcome()
    ensures { LoweredProgramsHaveTheUnitsOutcome }
{
    expressions_agree();
    tests_agree();
    operators_agree();
    conversions_agree();
    values_fit();
    stores_agree();
    objects_have_their_address();
    constants_agree();
    arguments_agree();
    functions_are_entered_alike();
    results_are_kept();
    outputs_agree();
    starts_agree();
    events_keep_agreement();
    runs_have_the_units_outcome();
    checked_programs_follow_their_items();
}
