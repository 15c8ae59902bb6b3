//! What the definitions promise, as clauses of functions that do nothing.

ghost use Rattle.std.specs.Prelude.{◌↔◌};
ghost use Rattle.domain_core.specs.Outlines.{Outlined};
ghost use Rattle.flow_facts.specs.Reports.{Reported};
ghost use Rattle.flow_facts.specs.Writable.{IsWritable};
ghost use Rattle.report_objections.specs.Accepted.{IsSoundWithPath};
ghost use Rattle.report_forms.specs.Migrating.{migrated};

use domain_core::Stepper;

/// The report in the second form is sound, its path bound included, exactly where the given one is; and some text
/// spells it where some text spells the given one.
pub fn migrated_reports_say_the_same<S: Stepper>()
    ensures sound { (stepper : S) (o : Outlined) (report : Reported) → IsSoundWithPath (S.machine stepper).system o report
        ↔ IsSoundWithPath (S.machine stepper).system o (migrated report) }
    ensures writable { (report : Reported) → IsWritable report → IsWritable (migrated report) }
{}
