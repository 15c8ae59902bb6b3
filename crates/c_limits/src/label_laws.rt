//! What the grammar promises of labels.

ghost use Rattle.c_limits.specs.LabelSpelled.{SpelledUnitsHaveFewLabels};

/// A function of a unit that some text spells allocates at most four labels for each token of the text.
pub fn spelled_units_have_few_labels()
    ensures { SpelledUnitsHaveFewLabels }
{}
