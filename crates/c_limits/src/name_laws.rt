//! What counts promise of names.

ghost use Rattle.c_limits.specs.Counted.{CountedUnitsHaveSpelledNames, CountedUnitsHaveFewFrames};

/// The names of a counted unit whose checks pass are identifiers, each object has a token of its own, and there are
/// few.
pub fn counted_units_have_spelled_names()
    ensures { CountedUnitsHaveSpelledNames }
{}

/// The objects of a counted unit whose checks pass, and the calls of functions that give something, are at most 256.
pub fn counted_units_have_few_frames()
    ensures { CountedUnitsHaveFewFrames }
{}
