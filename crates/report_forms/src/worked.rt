//! A small report, in either form.

ghost use Rattle.std.specs.Prelude.{◌≡◌};
ghost use Rattle.report_forms.specs.Migrating.{migrated};
ghost use Rattle.report_forms.specs.Worked.{small};

/// A report of the first form is the same report in the second, with its lines, both bounds and its certificate, and one
/// of the second form is as it was.
pub fn a_small_report_is_migrated()
    ensures first { migrated (small 1) ≡ small 2 }
    ensures second { migrated (small 2) ≡ small 2 }
{}
