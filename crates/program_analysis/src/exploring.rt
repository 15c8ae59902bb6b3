//! Explorations, and what they tell without a path bound.

ghost use Rattle.std.specs.Prelude.{◌≡◌, ◌≤◌, ◌<◌, [], length, IfOk};
ghost use Rattle.alf_check.specs.CheckedPrograms.{seen};
ghost use Rattle.alf_check.specs.Inputs.{KeepInputs};
ghost use Rattle.domain_core.specs.Outlines.{shape_of};
ghost use Rattle.domain_core.specs.OutlineOf.{IsOutlineOf};
ghost use Rattle.flow_graph.specs.Numbering.{IsGraph, most_nodes};
ghost use Rattle.flow_facts.specs.Writable.{IsWritable};
ghost use Rattle.scope_graph.specs.Placing.{plan_of};
ghost use Rattle.program_analysis.specs.Answers.{answer_of, IfTold, IfClosed};
ghost use Rattle.abstract_exec.specs.Explorations.{IsPool};
ghost use Rattle.abstract_step.specs.Steppers.{stepped_by};
ghost use Rattle.report_soundness.specs.ReportTold.{four_recording};
ghost use Rattle.program_analysis.specs.Analyses.{IsFound, IsClosedBy};
ghost use Rattle.program_analysis.specs.Exploring.{IsEnded, IsWritableOf};
ghost use Rattle.program_analysis.specs.AnalysisLaws.{names_of};
ghost use Rattle.program_analysis.specs.Bounds.{most_turns};

use crate::analysed::Analysed;
use abstract_exec::{Explored, Pool};
use abstract_step::AlfStepper;
use alf_check::{Checked, InputRow};
use domain_core::{Event, Outline};
use flow_gathering::FourRecorders;
use flow_graph::{Graph, names_tell_nodes_apart};
use flow_reports::report;
use report_soundness::numbers_are_at_most_the_steps;
use std::alloc::{AllocError, Global};
use worklist_rules::Policy;

// Explores a program's graph along its outline, for runs with inputs inside the ranges of the rows, and tells what
// each run does, with the events of the exploration, or the scope in which the turns were used up.
//
// Takes time by the turns and by what steps take, and memory for the places that are left and for the events.
pub(crate) fn explore(
    alloc: Global,
    checked: &Checked,
    graph: &Graph,
    outline: &Outline,
    rows: &[InputRow],
    policy: Policy,
    turns: u32,
) -> Result<Analysed, AllocError>
    requires graph { IsGraph (seen checked.now) graph.now }
    requires rows { KeepInputs (seen checked.now) rows.now }
    requires outline { IsOutlineOf (plan_of graph.now) (shape_of outline.now) }
    requires named { names_of outline.now ≡ graph.now.names }
    requires turns { turns ≤ most_turns }

    // What the policy finds over the pools of the program's machine.
    ensures found { IfOk result
        (λ analysed. IsFound (record { checked = checked.now; graph = graph.now; rows = rows.now }) outline.now policy
        turns (answer_of analysed)) }

    // The events are the policy's own.
    ensures events { IfOk result
        (λ analysed. IfClosed analysed
        (IsClosedBy (record { checked = checked.now; graph = graph.now; rows = rows.now }) outline.now policy turns)) }

    // The report is one that some text spells.
    ensures writable { IfOk result (λ analysed. IfTold (answer_of analysed) IsWritable) }
{
    checked.keeps();
    names_tell_nodes_apart();
    let stepper = AlfStepper::new(alloc, checked, graph, rows)?;
    explored(alloc, &stepper, outline, policy, turns)
}

// What the policy finds, told of the system of the stepper's machine.
fn explored(
    alloc: Global,
    stepper: &AlfStepper<'_>,
    outline: &Outline,
    policy: Policy,
    turns: u32,
) -> Result<Analysed, AllocError>
    requires outline { IsOutlineOf (plan_of stepper.now.graph) (shape_of outline.now) }
    requires nodes { length outline.now.nodes ≤ most_nodes }
    requires turns { turns ≤ most_turns }
    ensures found { IfOk result (λ analysed. IsFound stepper.now outline.now policy turns (answer_of analysed)) }
    ensures events { IfOk result (λ analysed. IfClosed analysed (IsClosedBy stepper.now outline.now policy turns)) }
    ensures writable { IfOk result (λ analysed. IfTold (answer_of analysed) (IsWritableOf outline.now)) }
{
    stepper.goes_along();
    let mut pool: Pool<AlfStepper, FourRecorders> = Pool::start(alloc, stepper, outline)?;
    match pool.explore(alloc, policy, turns)? {
        Explored::Closed(events) => told(alloc, &pool, events, outline, policy, turns),
        Explored::Left(scope) => Ok(Analysed::Unbounded(scope)),
    }
}

// The report of an exploration that ended.
fn told(
    alloc: Global,
    pool: &Pool<AlfStepper<'_>, FourRecorders>,
    events: Vec<Event>,
    outline: &Outline,
    policy: Policy,
    turns: u32,
) -> Result<Analysed, AllocError>
    requires kept { IsPool stepped_by four_recording pool.now }
    requires explored { IsEnded pool.now outline.now policy turns events.items }
    requires nodes { length outline.now.nodes ≤ most_nodes }
    requires turns { turns ≤ most_turns }
    ensures found { IfOk result (λ analysed. IsFound pool.now.stepper outline.now policy turns (answer_of analysed)) }
    ensures events { IfOk result
        (λ analysed. IfClosed analysed (IsClosedBy pool.now.stepper outline.now policy turns)) }
    ensures writable { IfOk result (λ analysed. IfTold (answer_of analysed) (IsWritableOf outline.now)) }
{
    numbers_are_at_most_the_steps::<AlfStepper>();
    let report = report(alloc, outline, pool)?;
    Ok(Analysed::Told(report, events))
}
