//! What the definitions promise, as clauses of functions that do nothing.

ghost use Rattle.std.specs.Prelude.{◌≡◌, ◌≤◌, ℕ, Bool, List, [], ◌∷◌, Option, reverse};
ghost use Rattle.alf_ops.specs.declared.history.RunFault.{RunFault};
ghost use Rattle.domain_core.specs.declared.event.Event.{Event};
ghost use Rattle.domain_core.specs.Outlines.{Outlined, IsOutline, shape_of};
ghost use Rattle.domain_core.specs.Machines.{IsAlong};
ghost use Rattle.flow_facts.specs.Reports.{Reported};
ghost use Rattle.ipet_rows.specs.Uses.{IsEnded, run_cost};
ghost use Rattle.ipet_rows.specs.Shaped.{FitOutline};
ghost use Rattle.ipet_rows.specs.Feasible.{MeetFacts};
ghost use Rattle.worklist_rules.specs.Pools.{Pooled};
ghost use Rattle.worklist_rules.specs.Events.{opened, HappenAll};
ghost use Rattle.domain_core.specs.SystemRuns.{IsRun};
ghost use Rattle.worklist_rules.specs.Kept.{IsKept};
ghost use Rattle.path_lp.specs.Bounding.{IsAbove};
ghost use Rattle.report_soundness.specs.ReportTold.{FourRecorders, FourBooks, four_order, four_recording, found_of};
ghost use Rattle.report_soundness.specs.ReportTold.{costs_of, told_report};
ghost use Rattle.worklist_rules.specs.EndedRuns.{Passes};
ghost use Rattle.report_soundness.specs.Runs.{IsSound};
ghost use Rattle.report_soundness.specs.Exact.{LoneRun};
ghost use Rattle.report_soundness.specs.Bounded.{IsTold, HasRun, bounded, HasPathBound, IsPathSound, IsPathBounded};
ghost use Rattle.report_soundness.specs.Bounded.{IsWithinCount};

use domain_core::Stepper;

/// Where no place of an exploration is left, and some run of the stepper's system ends, the report is a told one, and
/// of each node that was stepped some total was collected: `bounded_report` asks for this. `runs`: some run ends where
/// the system has a run and a report is sound for it.
pub fn closed_explorations_are_told<S: Stepper>()
    ensures kept { (w : Pooled S S.State FourRecorders FourBooks) → IsKept S.machine four_recording w → w.spots ≡ []
        → HasRun (S.machine w.stepper).system → IsTold w.outline (told_report w.outline (found_of w)) }
    ensures runs { (stepper : S) (o : Outlined) (report : Reported) → IsSound (S.machine stepper).system o report
        → (run : ℕ → Option (ℕ × S.Concrete)) → IsRun (S.machine stepper).system run
        → HasRun (S.machine stepper).system }
    ensures events { (stepper : S) (o : Outlined) (events : List Event) (w : Pooled S S.State FourRecorders FourBooks)
        → (S.machine stepper).kept → IsOutline (shape_of o)
        → IsAlong S.State S.Concrete (shape_of o) (S.machine stepper)
        → HappenAll S.machine S.State.order four_order four_recording (opened S.machine four_recording stepper o) events
        w
        → w.spots ≡ [] → HasRun (S.machine stepper).system → IsTold o (told_report o (found_of w)) }
{}

/// What the answer of `bounded_report` promises of runs. Where the given report is sound for a stepper's system, the
/// answer is sound with its path bound as its count bound: each run ends, meets each fact, faults only where an alarm
/// says so, and costs at most the path bound. Where some run costs the count bound, the path bound is the count bound;
/// and where the given report tells one run exactly, it is the run's cost.
pub fn bounded_reports_are_sound<S: Stepper>()
    ensures sound { (stepper : S) (o : Outlined) (given report : Reported) (pivots : ℕ)
        → IsAlong S.State S.Concrete (shape_of o) (S.machine stepper) → IsTold o given
        → IsSound (S.machine stepper).system o given → report ≡ bounded o given pivots → IsPathBounded o report
        → IsPathSound (S.machine stepper).system o report }
    ensures reached { (stepper : S) (o : Outlined) (report : Reported) → IsPathSound (S.machine stepper).system o report
        → IsWithinCount report
        → (c : S.Concrete) (trace : List ℕ) (fault : Option RunFault) → (S.machine stepper).system.starts c
        → Passes (S.machine stepper).system 0 c trace fault
        → run_cost (costs_of o) trace ≡ report.count_bound → HasPathBound (λ b. b.0 ≡ report.count_bound) report }
    ensures alone { (stepper : S) (o : Outlined) (given report : Reported) (pivots : ℕ) (trace : List ℕ)
        → report ≡ bounded o given pivots → IsPathSound (S.machine stepper).system o report → IsWithinCount report
        → LoneRun (S.machine stepper).system o given trace
        → HasPathBound (λ b. b.0 ≡ run_cost (costs_of o) trace) report }
{}

/// Where some run that meets the facts costs the count bound, the path bound is the count bound.
pub fn a_run_at_the_count_bound_is_at_the_path_bound()
    ensures { (o : Outlined) (report : Reported) (v : ℕ) → IsAbove o report.facts v → v ≤ report.count_bound
        → FitOutline (shape_of o) report.facts
        → (fault : Bool) (k : ℕ) (past : List ℕ) → IsEnded (shape_of o) report.facts fault (k ∷ past)
        → MeetFacts (shape_of o) (reverse (k ∷ past)) report.facts
        → run_cost (costs_of o) (k ∷ past) ≡ report.count_bound → v ≡ report.count_bound }
{}
