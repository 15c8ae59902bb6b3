//! What the grammar promises of expressions.

ghost use Rattle.c_limits.specs.PlainSpelled.{SpelledUnitsArePlain, SpelledUnitsAreShallow};

/// In each function of a unit that some text spells `&&` and `||` stand in conditions alone, at their top, below `!`
/// and in parentheses, and in no operator with `=`.
pub fn spelled_units_are_plain()
    ensures { SpelledUnitsArePlain }
{}

/// In each value and each condition of such a function at most ten operators are nested.
pub fn spelled_units_are_shallow()
    ensures { SpelledUnitsAreShallow }
{}
