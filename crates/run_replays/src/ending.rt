//! What is told of a run that is over.

ghost use Rattle.std.specs.Prelude.{◌≡◌, ◌≤◌, ◌^◌, ◌↔◌, IsTrue, ℕ, List, [], ◌∷◌, ◌++◌, Contains, reverse, length};
ghost use Rattle.std.specs.Prelude.{IfSome, IfNone};
ghost use Rattle.flow_facts.specs.declared.fact.Fact.TheVariants.{Alarm};
ghost use Rattle.domain_core.specs.Outlines.{shape_of};
ghost use Rattle.flow_facts.specs.Reports.{reported};
ghost use Rattle.ipet_rows.specs.Uses.{run_cost};
ghost use Rattle.report_soundness.specs.ReportTold.{costs_of, four_recording};
ghost use Rattle.report_soundness.specs.Runs.{HasAlarm};
ghost use Rattle.report_objections.specs.Shaping.{IsShaped};
ghost use Rattle.report_objections.specs.Objecting.{first_line as first_line_of};
ghost use Rattle.run_replays.specs.Replays.{LacksAlarm, TellBounds, TellEnd};
ghost use Rattle.run_replays.specs.Walks.{IsEntered};

use crate::meeting::broken;
use crate::walked::{FourBooks, RunBook};
use alf_ops::RunFault;
use domain_core::Outline;
use flow_facts::{Fact, Report};
use report_objections::Objection;

/// What is told of the run: its cost, or the first thing that speaks against the report.
pub fn told_of(
    outline: &Outline,
    report: &Report,
    run: &RunBook<FourBooks>,
) -> Result<u64, Objection>
    requires shaped { IsShaped outline.now (reported report.now) }
    requires sized { four_recording.book_is_of outline.now run.now.book }
    ensures { (past : List ℕ) → IsEntered four_recording outline.now run.now.book (run.now.last ∷ past)
        → run.now.cost ≡ run_cost (costs_of outline.now) (reverse (run.now.last ∷ past))
        → TellEnd (shape_of outline.now) (costs_of outline.now) (reported report.now) (reverse (run.now.last ∷ past))
        run.now.fault result }
{
    if let Some(objection) = lacking(&report.facts, run.last, run.fault) {
        return Err(objection);
    }
    if let Some(line) = broken(
        outline,
        &run.book,
        &report.facts,
        first_line(outline, report),
    ) {
        return Err(Objection::NoFact(line));
    }
    bounded(report, run.cost)
}

/// The number of the line of the first fact.
pub fn first_line(outline: &Outline, report: &Report) -> u64
    requires { IsShaped outline.now (reported report.now) }
    ensures line { result ≡ first_line_of (reported report.now) }
    ensures low { result ≤ 2 ^ 34 }
{
    outline.kept();
    2 + (report.nodes.len() as u64 + report.scopes.len() as u64)
}

// That the fault of a run with this last node has no alarm, if it has none.
fn lacking(facts: &[Fact], last: u32, fault: Option<RunFault>) -> Option<Objection>
    ensures none { IfNone result ((before : List ℕ) → HasAlarm facts.now (before ++ last ∷ []) fault) }
    ensures some { IfSome result (λ e. (before : List ℕ) → LacksAlarm facts.now (before ++ last ∷ []) fault e) }
{
    let Some(kind) = fault else {
        return None;
    };
    if facts.contains(&Fact::Alarm(last, kind)) {
        None
    } else {
        Some(Objection::NoAlarm(last, kind))
    }
}

// What the bounds tell of a run of this cost.
fn bounded(report: &Report, cost: u64) -> Result<u64, Objection>
    ensures { TellBounds (reported report.now) cost result }
{
    if report.count_bound < cost {
        return Err(Objection::NoCountBound);
    }
    match report.path_bound {
        Some((bound, _)) if bound < cost => Err(Objection::NoPathBound),
        _ => Ok(cost),
    }
}
