//! What the definitions promise, as clauses of functions that do nothing.

ghost use Rattle.std.specs.Prelude.{◌≡◌, ◌≤◌, ◌<◌, ◌*◌, ◌^◌, ℕ, List, [], Option, All, length};
ghost use Rattle.alf_ops.specs.declared.history.RunFault.{RunFault};
ghost use Rattle.domain_core.specs.declared.event.Event.{Event};
ghost use Rattle.domain_core.specs.Outlines.{Outlined, CostsFit, IsOutline, shape_of};
ghost use Rattle.domain_core.specs.Machines.{IsAlong};
ghost use Rattle.flow_facts.specs.Writable.{IsNodeName, IsWritable};
ghost use Rattle.worklist_rules.specs.Pools.{Pooled};
ghost use Rattle.worklist_rules.specs.Events.{opened, HappenAll};
ghost use Rattle.worklist_rules.specs.Policies.{IsPolicyRun};
ghost use Rattle.worklist_rules.specs.Kept.{IsKept};
ghost use Rattle.report_soundness.specs.ReportTold.{FourRecorders, FourBooks, Found, four_order, four_recording};
ghost use Rattle.report_soundness.specs.ReportTold.{books_of, found_of, count_bound, told_report};
ghost use Rattle.report_soundness.specs.Numbers.{AreOrderly};
ghost use Rattle.worklist_rules.specs.EndedRuns.{Passes};
ghost use Rattle.report_soundness.specs.Runs.{IsSound};
ghost use Rattle.report_soundness.specs.Exact.{LoneRun};

use domain_core::Stepper;
use worklist_rules::Policy;

/// Whatever the stepper and the events: where no place is left, the report is sound. Each run of the
/// stepper's system ends and meets each fact, its fault has an alarm at its last node, and it costs no
/// more than the count bound. `kept` says so of each pool that keeps what pools keep.
pub fn closed_explorations_are_sound<S: Stepper>()
    ensures kept { (w : Pooled S S.State FourRecorders FourBooks) → IsKept S.machine four_recording w → w.spots ≡ []
        → IsSound (S.machine w.stepper).system w.outline (told_report w.outline (found_of w)) }
    ensures events { (stepper : S) (o : Outlined) (events : List Event) (w : Pooled S S.State FourRecorders FourBooks)
        → (S.machine stepper).kept → IsOutline (shape_of o)
        → IsAlong S.State S.Concrete (shape_of o) (S.machine stepper)
        → HappenAll S.machine S.State.order four_order four_recording (opened S.machine four_recording stepper o) events
        w
        → w.spots ≡ [] → IsSound (S.machine stepper).system o (told_report o (found_of w)) }
{}

/// Of a pool that events led to, no number in the books of totals, loops and counts is greater than the
/// count of its steps, and the least of a span is not greater than the greatest.
pub fn numbers_are_at_most_the_steps<S: Stepper>()
    ensures { (stepper : S) (o : Outlined) (events : List Event) (w : Pooled S S.State FourRecorders FourBooks)
        → HappenAll S.machine S.State.order four_order four_recording (opened S.machine four_recording stepper o) events
        w → AreOrderly w.steps (books_of w.book) }
{}

/// Where such numbers times nodes are few, the count bound fits 64 bits, and the report is one that some
/// text spells: so what is printed is read again as the same report.
pub fn told_reports_are_writable()
    ensures room { (o : Outlined) (found : Found) (k : ℕ) → CostsFit o → AreOrderly k found.books
        → length o.nodes * k ≤ 2 ^ 31 → count_bound o found < 2 ^ 64 }
    ensures writable { (o : Outlined) (found : Found) (k : ℕ) → IsOutline (shape_of o) → CostsFit o
        → All (λ row. IsNodeName row.name.items) o.nodes → AreOrderly k found.books
        → length o.nodes * k ≤ 2 ^ 31 → IsWritable (told_report o found) }
{}

/// Two runs of one policy from one pool leave one report. Where no place is left, each number of turns that
/// is not below the steps leaves none either, and the same report.
pub fn analyses_agree<S: Stepper>(policy: Policy)
    ensures one { (turns : ℕ) (old new other : Pooled S S.State FourRecorders FourBooks) (events others : List Event)
        → IsPolicyRun S.machine S.State.order four_order four_recording policy turns old events new
        → IsPolicyRun S.machine S.State.order four_order four_recording policy turns old others other
        → told_report new.outline (found_of new) ≡ told_report other.outline (found_of other) }
    ensures longer { (turns more : ℕ) (old new other : Pooled S S.State FourRecorders FourBooks)
        (events others : List Event) → new.steps ≤ more
        → IsPolicyRun S.machine S.State.order four_order four_recording policy turns old events new → new.spots ≡ []
        → IsPolicyRun S.machine S.State.order four_order four_recording policy more old others other
        → (other.spots ≡ []) × (told_report new.outline (found_of new) ≡ told_report other.outline (found_of other)) }
{
    // The law has a policy, which no code asks for.
    let _ = policy;
}

/// Where a system has one start and no place is left, the report tells exactly the run that passes
/// through the trace: each node's own count twice, the nodes without a place as dead, the least and the
/// greatest count of each loop's executions, the pairs of this one trace, the run's fault as the only
/// alarm, and its cost as the count bound.
pub fn a_lone_run_is_told_exactly<S: Stepper>()
    ensures { (stepper : S) (o : Outlined) (events : List Event) (w : Pooled S S.State FourRecorders FourBooks)
        → (S.machine stepper).kept → IsOutline (shape_of o)
        → IsAlong S.State S.Concrete (shape_of o) (S.machine stepper)
        → HappenAll S.machine S.State.order four_order four_recording (opened S.machine four_recording stepper o) events
        w
        → w.spots ≡ [] → (c : S.Concrete) (trace : List ℕ) (fault : Option RunFault)
        → (S.machine stepper).system.starts c
        → ((d e : S.Concrete) → (S.machine stepper).system.starts d → (S.machine stepper).system.starts e → e ≡ d)
        → Passes (S.machine stepper).system 0 c trace fault
        → LoneRun (S.machine stepper).system o (told_report o (found_of w)) trace }
{}
