//! What the definitions promise, as clauses of functions that do nothing.

ghost use Rattle.alf_values.specs.Standing.{EachLoad};

/// Where the memory stands for a history, each cell of an active frame gives by its bytes what the
/// history's load gives.
pub fn bytes_that_stand_give_each_load()
    ensures { EachLoad }
{}
