//! What the definitions promise, as clauses of functions that do nothing.

ghost use Rattle.std.specs.Prelude.{◌≡◌, ◌≤◌, ◌^◌, ◌-◌, ℕ, List, [], Option, None};
ghost use Rattle.std.specs.Option.{option_map_or};
ghost use Rattle.domain_core.specs.declared.event.Event.{Event};
ghost use Rattle.domain_core.specs.Outlines.{Outlined, IsOutline, shape_of};
ghost use Rattle.domain_core.specs.Machines.{IsAlong};
ghost use Rattle.flow_facts.specs.Reports.{Certificate, Reported};
ghost use Rattle.flow_facts.specs.declared.report.BoundWord.{BoundWord};
ghost use Rattle.ipet_rows.specs.Shaped.{FitOutline};
ghost use Rattle.worklist_rules.specs.Pools.{Pooled};
ghost use Rattle.worklist_rules.specs.Events.{opened, HappenAll};
ghost use Rattle.report_soundness.specs.ReportTold.{FourRecorders, FourBooks, four_order, four_recording, found_of};
ghost use Rattle.report_soundness.specs.ReportTold.{told_facts, told_report};
ghost use Rattle.report_soundness.specs.BoundTold.{HaveTotals};
ghost use Rattle.report_objections.specs.declared.objection.Objection.{Objection};
ghost use Rattle.report_objections.specs.Checks.{IsChecked};
ghost use Rattle.report_objections.specs.Accepted.{IsSoundWithPath, IsScaled};
ghost use Rattle.report_objections.specs.OwnLaws.{with_certificate, AreHeld};

use domain_core::Stepper;

/// Whatever the stepper and the events of the certificate: where nothing speaks against a report, it is sound. Each run
/// of the stepper's system ends and meets each fact, its fault has an alarm, and it costs at most each bound of the
/// report.
pub fn accepted_reports_are_sound<S: Stepper>()
    ensures { (stepper : S) (o : Outlined) (report : Reported) → (S.machine stepper).kept → IsOutline (shape_of o)
        → IsAlong S.State S.Concrete (shape_of o) (S.machine stepper) → IsScaled report
        → IsChecked S.machine S.State.order stepper o report None
        → IsSoundWithPath (S.machine stepper).system o report }
{}

/// A report has one answer.
pub fn a_report_has_one_answer<S: Stepper>()
    ensures { (stepper : S) (o : Outlined) (report : Reported) (a b : Option Objection)
        → IsChecked S.machine S.State.order stepper o report a
        → IsChecked S.machine S.State.order stepper o report b → a ≡ b }
{}

/// Nothing speaks against a report that an exploration itself tells, with its own events, and with multipliers whose
/// value is at most its path bound: where no place is left, of each node that was stepped some total was collected, and
/// the facts fit.
pub fn own_reports_are_accepted<S: Stepper>()
    ensures { (stepper : S) (o : Outlined) (events : List Event) (w : Pooled S S.State FourRecorders FourBooks)
        → HappenAll S.machine S.State.order four_order four_recording (opened S.machine four_recording stepper o) events
        w → w.spots ≡ []
        → HaveTotals o (found_of w) → FitOutline (shape_of o) (told_facts o (found_of w))
        → (bound : Option (ℕ × BoundWord)) (cert : Certificate) (v : ℕ) → cert.events ≡ events
        → AreHeld o (told_facts o (found_of w)) cert v
        → v ≤ option_map_or (λ b. b.0) bound (2 ^ 64 - 1)
        → IsChecked S.machine S.State.order stepper o (with_certificate (told_report o (found_of w)) bound cert) None }
{}
