//! What runs of a lowered program promise.

ghost use Rattle.lowering_simulation.specs.Related.{RunsHaveTheUnitsOutcome};

/// Where the leaves of all functions do what the unit says, and related histories stay related where functions are
/// entered and left, the run of the program has the outcome of the unit: an outcome of the unit with some number of
/// turns is that of the run; a run that is over after so many steps has the outcome of the unit with as many turns;
/// and turns are used up for every number exactly where the run never ends.
pub fn runs_have_the_units_outcome()
    ensures { RunsHaveTheUnitsOutcome }
{}
