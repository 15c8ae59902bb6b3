//! What the definitions promise, as clauses of functions that do nothing.

ghost use Rattle.std.specs.Prelude.{◌≡◌, ◌≤◌, ◌≤ℤ◌, ℕ, pos, List, All, length};
ghost use Rattle.domain_core.specs.Outlines.{Outlined, shape_of};
ghost use Rattle.domain_core.specs.Machines.{IsAlong};
ghost use Rattle.flow_facts.specs.Facts.{IsAbout};
ghost use Rattle.flow_facts.specs.Reports.{Reported};
ghost use Rattle.ipet_rows.specs.Shaped.{FitOutline};
ghost use Rattle.ipet_rows.specs.Uses.{run_cost};
ghost use Rattle.report_soundness.specs.BookTold.{SumUp};
ghost use Rattle.simplex_rules.specs.OutlineOpenings.{AreLimited};
ghost use Rattle.report_soundness.specs.ReportTold.{Found, costs_of, told_facts, count_bound, told_report};
ghost use Rattle.report_soundness.specs.Exact.{LoneRun};
ghost use Rattle.report_soundness.specs.Runs.{IsSound};
ghost use Rattle.path_lp.specs.Bounding.{IsAbove, opening_sum};
ghost use Rattle.report_soundness.specs.RunLaws.{IsAboveRuns};
ghost use Rattle.report_soundness.specs.BoundTold.{HaveTotals};

use domain_core::Stepper;

/// The facts that an exploration tells are about the outline and fit it. Where of each node that was stepped
/// some total was collected, of each node some fact says how often a run leaves it at most; and so it is
/// where a run was collected. The sum over the openings is at most the count bound.
pub fn told_facts_bound_paths()
    ensures about { (o : Outlined) (found : Found) → All (λ f. IsAbout (shape_of o) f) (told_facts o found) }
    ensures fit { (o : Outlined) (found : Found) → FitOutline (shape_of o) (told_facts o found) }
    ensures limited { (o : Outlined) (found : Found) → HaveTotals o found
        → AreLimited (length o.nodes) (told_facts o found) }
    ensures totals { (o : Outlined) (found : Found) (past : List ℕ) → SumUp o found.books past → HaveTotals o found }
    ensures most { (o : Outlined) (found : Found) → opening_sum o (told_facts o found) ≤ℤ pos (count_bound o found) }
{}

/// Where a report is sound and its facts fit the outline, each run of the stepper's system that ends costs at
/// most a value that no run that meets the facts passes, as the path bound is. What is at most the sum over
/// the openings, as the path bound is, is at most the count bound; and where the report tells one run exactly,
/// a value with both is the run's cost.
pub fn path_bounds_hold_of_runs<S: Stepper>()
    ensures above { (stepper : S) (o : Outlined) (report : Reported) (v : ℕ)
        → IsAlong S.State S.Concrete (shape_of o) (S.machine stepper) → IsSound (S.machine stepper).system o report
        → FitOutline (shape_of o) report.facts → IsAbove o report.facts v → IsAboveRuns (S.machine stepper).system o v }
    ensures within { (o : Outlined) (found : Found) (v : ℕ) → pos v ≤ℤ opening_sum o (told_facts o found)
        → v ≤ count_bound o found }
    ensures exact { (stepper : S) (o : Outlined) (found : Found) (trace : List ℕ) (v : ℕ)
        → LoneRun (S.machine stepper).system o (told_report o found) trace
        → IsAboveRuns (S.machine stepper).system o v → pos v ≤ℤ opening_sum o (told_facts o found)
        → v ≡ run_cost (costs_of o) trace }
{}
