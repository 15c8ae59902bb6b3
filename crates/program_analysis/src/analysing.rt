//! The analysis.

ghost use Rattle.std.specs.Prelude.{◌≡◌, ◌≤◌, IfOk};
ghost use Rattle.alf_check.specs.CheckedPrograms.{seen};
ghost use Rattle.alf_check.specs.Inputs.{KeepInputs};
ghost use Rattle.domain_core.specs.Outlines.{shape_of};
ghost use Rattle.domain_core.specs.OutlineOf.{IsOutlineOf};
ghost use Rattle.flow_facts.specs.Reports.{reported};
ghost use Rattle.flow_facts.specs.Writable.{IsWritable};
ghost use Rattle.flow_graph.specs.Numbering.{IsGraph};
ghost use Rattle.scope_graph.specs.Placing.{plan_of};
ghost use Rattle.report_soundness.specs.Bounded.{IsTold};
ghost use Rattle.program_analysis.specs.AnalysisLaws.{names_of};
ghost use Rattle.program_analysis.specs.Bounds.{most_turns};
ghost use Rattle.program_analysis.specs.BoundedAnalyses.{IsBoundWith, IsFoundWith, IfTold, IsAnsweredWith, AreWritable};

use crate::analysed::Analysed;
use crate::bounded::BoundedAnalysis;
use crate::exploring::explore;
use crate::fitting::{events_fit, multipliers_fit, scale_fits};
use crate::laws::parts_fit;
use alf_check::{Checked, InputRow};
use domain_core::{Event, Outline};
use dual_check::Duals;
use flow_facts::{Cert, Report};
use flow_graph::Graph;
use report_soundness::bounded_report;
use std::alloc::{AllocError, Global};
use worklist_rules::Policy;

/// Explores a program's graph along its outline, for runs with inputs inside the ranges of the rows, and tells what
/// each run does, with the path bound of the facts after so many pivots at most, and beside it the certificate of both;
/// or the scope in which the turns were used up.
///
/// Takes time by the turns and by what steps take, then by the pivots; and memory for the places that are left and
/// for the events, then for the rows.
pub fn analyse(
    alloc: Global,
    checked: &Checked,
    graph: &Graph,
    outline: &Outline,
    rows: &[InputRow],
    policy: Policy,
    turns: u32,
    pivots: u32,
) -> Result<BoundedAnalysis, AllocError>
    requires graph { IsGraph (seen checked.now) graph.now }
    requires rows { KeepInputs (seen checked.now) rows.now }
    requires outline { IsOutlineOf (plan_of graph.now) (shape_of outline.now) }
    requires named { names_of outline.now ≡ graph.now.names }
    requires turns { turns ≤ most_turns }

    // What the policy finds over the pools of the program's machine, with the path bound of it, the policy's events and
    // the multipliers of the bound.
    ensures found { IfOk result
        (λ analysed. IsFoundWith (record { checked = checked.now; graph = graph.now; rows = rows.now }) outline.now
        policy turns pivots analysed) }

    // The report is one that some text spells, with the certificate too.
    ensures writable { IfOk result (λ analysed. IfTold analysed AreWritable) }
{
    checked.keeps();
    outline.kept();
    parts_fit();
    match explore(alloc, checked, graph, outline, rows, policy, turns)? {
        Analysed::Told(report, events) => with_bound(alloc, outline, report, events, pivots),
        Analysed::Unbounded(scope) => Ok(BoundedAnalysis::Unbounded(scope)),
    }
}

// The report with its path bound, and the certificate.
fn with_bound(
    alloc: Global,
    outline: &Outline,
    report: Report,
    events: Vec<Event>,
    pivots: u32,
) -> Result<BoundedAnalysis, AllocError>
    requires { IsTold outline.now (reported report) }
    ensures found { IfOk result
        (λ analysed. IsAnsweredWith analysed (IsBoundWith outline.now (reported report) events.items pivots)) }
    ensures writable { IsWritable (reported report) → IfOk result (λ analysed. IfTold analysed AreWritable) }
{
    let bounded = bounded_report(alloc, outline, report, pivots)?;
    events_fit(&events);
    scale_fits(bounded.duals.scale);
    multipliers_fit(&bounded.duals.multipliers);
    let cert = certificate(events, bounded.duals);
    Ok(BoundedAnalysis::Told(bounded.report, cert))
}

// The events with the multipliers.
fn certificate(events: Vec<Event>, duals: Duals) -> Cert
    ensures events { result.events.items ≡ events.items }
    ensures scale { result.scale ≡ duals.scale }
    ensures multipliers { result.multipliers.items ≡ duals.multipliers.items }
{
    Cert {
        events,
        scale: duals.scale,
        multipliers: duals.multipliers,
    }
}
