//! The replay.

ghost use Rattle.std.specs.Prelude.{◌≡◌, length, IfOk};
ghost use Rattle.alf_check.specs.CheckedPrograms.{seen};
ghost use Rattle.alf_check.specs.Inputs.{KeepInputs};
ghost use Rattle.alf_runs.specs.Places.{AreWords};
ghost use Rattle.alf_runs.specs.Starts.{start};
ghost use Rattle.domain_core.specs.Outlines.{shape_of};
ghost use Rattle.domain_core.specs.OutlineOf.{IsOutlineOf};
ghost use Rattle.flow_facts.specs.Reports.{reported};
ghost use Rattle.flow_graph.specs.Numbering.{IsGraph};
ghost use Rattle.scope_graph.specs.Placing.{plan_of};
ghost use Rattle.report_soundness.specs.ReportTold.{costs_of};
ghost use Rattle.report_objections.specs.Shaping.{IsShaped};
ghost use Rattle.run_replays.specs.Replays.{TellsReplayedRun, TellsValues};

use crate::allowed::{allowed, place_of_line};
use crate::ending::{first_line, told_of};
use crate::values::{outside, words_of};
use crate::walked::Walked;
use crate::walking::walk;
use alf_check::{Checked, InputRow};
use alf_runs::active_frames_follow_the_call_path;
use domain_core::Outline;
use flow_facts::Report;
use flow_gathering::FourRecorders;
use flow_graph::Graph;
use report_objections::Objection;
use std::alloc::{AllocError, Global};

/// What the one run from these values costs, or the first thing that speaks against the report, which has the form that
/// the outline asks for.
///
/// The order is: the values, then the run, which stops where a node passes its `dead` or `total` line; of a run that is
/// over the alarm of its fault, the lines in order, the count bound and the path bound. Takes time by the run and by
/// the lines, and no memory for the run but that of the machine and of the recorders. A run of more than 4,294,967,294
/// nodes is want of memory.
pub fn replay(
    alloc: Global,
    checked: &Checked,
    graph: &Graph,
    outline: &Outline,
    rows: &[InputRow],
    report: &Report,
    values: &[i64],
) -> Result<Result<u64, Objection>, AllocError>
    requires graph { IsGraph (seen checked.now) graph.now }
    requires rows { KeepInputs (seen checked.now) rows.now }
    requires outline { IsOutlineOf (plan_of graph.now) (shape_of outline.now) }
    requires shaped { IsShaped outline.now (reported report.now) }
    requires one_each { length values.now ≡ length rows.now }
    ensures { IfOk result
        (λ told. TellsValues (seen checked.now) graph.now.nodes rows.now outline.now (reported report.now) values.now
        told) }
{
    active_frames_follow_the_call_path();
    if let Some(objection) = outside(rows, values)? {
        return Ok(Err(objection));
    }
    let words = words_of(alloc, rows, values)?;
    let told = told_of_run(alloc, checked, graph, outline, rows, report, &words)?;
    Ok(told)
}

// The same of the run whose inputs have these words.
fn told_of_run(
    alloc: Global,
    checked: &Checked,
    graph: &Graph,
    outline: &Outline,
    rows: &[InputRow],
    report: &Report,
    words: &[u64],
) -> Result<Result<u64, Objection>, AllocError>
    requires graph { IsGraph (seen checked.now) graph.now }
    requires rows { KeepInputs (seen checked.now) rows.now }
    requires outline { IsOutlineOf (plan_of graph.now) (shape_of outline.now) }
    requires words { AreWords rows.now words.now }
    requires shaped { IsShaped outline.now (reported report.now) }
    ensures { IfOk result
        (λ told. TellsReplayedRun (seen checked.now) graph.now.nodes (start (seen checked.now) rows.now words.now)
        (shape_of outline.now) (costs_of outline.now) (reported report.now) told) }
{
    let visits = allowed(alloc, outline, &report.facts)?;
    match walk::<FourRecorders>(alloc, checked, graph, outline, rows, words, visits)? {
        Walked::Over(run) => Ok(told_of(outline, report, &run)),
        Walked::Passed(node) => match place_of_line(&report.facts, node) {
            Some(place) => Ok(Err(Objection::NoFact(first_line(outline, report) + place as u64))),
            // Each node has one `dead` or `total` line.
            None => unreachable!(),
        },
    }
}
