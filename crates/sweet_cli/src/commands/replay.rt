//! `replay FILE REPORT`: the one run from given values is held against a report.

ghost use Rattle.std.specs.Prelude.{◌≡◌, length, IfOk};
ghost use Rattle.alf_check.specs.CheckedPrograms.{NumberedProgram, seen};
ghost use Rattle.alf_check.specs.Inputs.{KeepInputs};
ghost use Rattle.flow_graph.specs.Numbering.{IsGraph};
ghost use Rattle.flow_facts.specs.Reports.{reported};
ghost use Rattle.program_machines.specs.NodeCosts.{HasCosts};
ghost use Rattle.command_plans.specs.Works.{Works, Judges};
ghost use Rattle.command_files.specs.Seen.{IsOutlined, scoped_of, tables_of};
ghost use Rattle.sweet_cli.specs.Words.{replay_meant};
ghost use Rattle.run_replays.specs.Replays.{IsReplayed};
ghost use Rattle.sweet_cli.specs.Task.{IsPromised};
ghost use Rattle.sweet_cli.specs.Replay.{replay, ReplayMeans, replaying, run_judged};

use crate::commands::analyse::priced;
use crate::words::ReplayWords;
use answer_texts::{holds_line, objection_line};
use command_files::{ScopedProgram, Tables, report_in, scoped_in, tables_in, values_in};
use command_plans::{Stop, Why};
use cost_table::a_file_has_one_answer;
use flow_base::Shelf;
use flow_facts::Report;
use flow_graph::graphs_are_expansions;
use program_analysis::a_program_has_one_analysis;
use report_checks::is_shaped;
use report_objections::Objection;
use run_replays::a_replay_tells_one_thing;
use std::alloc::{AllocError, Global};

/// The text that tells the run's cost.
#[tactic(auto, unfolding(crate::specs::Replay::replaying))]
pub fn replay<F: Shelf>(
    alloc: Global,
    given: ReplayWords<'_>,
    shelf: &mut F,
) -> Result<Vec<u8>, Stop>
    ensures work { Works (replaying (replay_meant given.entry)) (λ text. text.items)
        (F.state shelf.old) result (F.state shelf.new) }
    ensures promise { IfOk result
        (λ text. IsPromised (replay (replay_meant given.entry)) (F.state shelf.old) (F.state shelf.new) text.items) }
{
    a_file_has_one_answer();
    let program = scoped_in(alloc, given.program, given.root, shelf)?;
    let tables = tables_in(
        alloc,
        &program.expanded.checked,
        given.inputs,
        given.costs,
        shelf,
    )?;
    let text = run_judged(alloc, given, program, &tables, shelf)?;
    Ok(text)
}

// The report and the values are read, and the run is held against the report.
#[tactic(auto, unfolding(crate::specs::Replay::run_judged))]
fn run_judged<F: Shelf>(
    alloc: Global,
    given: ReplayWords<'_>,
    program: ScopedProgram,
    tables: &Tables,
    shelf: &mut F,
) -> Result<Vec<u8>, Stop>
    requires graph { IsGraph (seen program.expanded.checked) program.expanded.graph }
    requires rows { KeepInputs (seen program.expanded.checked) tables.now.rows.items }
    requires outline { IsOutlined program.expanded.graph program.outline }
    ensures { Works (run_judged (replay_meant given.entry) (scoped_of program) (tables_of tables.now))
        (λ text. text.items)
        (F.state shelf.old) result (F.state shelf.new) }
{
    let report = report_in(alloc, given.report, shelf)?;
    let values = values_in(alloc, &tables.rows, given.values, shelf)?;
    let text = told(alloc, program, tables, &report, &values)?;
    Ok(text)
}

// What is told of the run, with these costs of blocks.
fn told(
    alloc: Global,
    program: ScopedProgram,
    tables: &Tables,
    report: &Report,
    values: &[i64],
) -> Result<Vec<u8>, Stop>
    requires graph { IsGraph (seen program.expanded.checked) program.expanded.graph }
    requires rows { KeepInputs (seen program.expanded.checked) tables.now.rows.items }
    requires outline { IsOutlined program.expanded.graph program.outline }
    requires one_each { length values.now ≡ length tables.now.rows.items }
    ensures { Judges (ReplayMeans (scoped_of program) tables.now.rows.items tables.now.costs
        (reported report.now) values.now) (λ text. text.items) result }
{
    let program = priced(program, &tables.costs);
    held(alloc, &program, tables, report, values)
}

// The same where the outline says what nodes cost.
fn held(
    alloc: Global,
    program: &ScopedProgram,
    tables: &Tables,
    report: &Report,
    values: &[i64],
) -> Result<Vec<u8>, Stop>
    requires graph { IsGraph (seen program.now.expanded.checked) program.now.expanded.graph }
    requires rows { KeepInputs (seen program.now.expanded.checked) tables.now.rows.items }
    requires outline { IsOutlined program.now.expanded.graph program.now.outline }
    requires priced { (other : NumberedProgram) → IsGraph other program.now.expanded.graph
        → HasCosts other program.now.expanded.graph tables.now.costs program.now.outline }
    requires one_each { length values.now ≡ length tables.now.rows.items }
    ensures { Judges (ReplayMeans (scoped_of program.now) tables.now.rows.items tables.now.costs
        (reported report.now) values.now) (λ text. text.items) result }
{
    program.expanded.checked.keeps();
    graphs_are_expansions();
    a_program_has_one_analysis();
    a_replay_tells_one_thing();
    let told = replayed(alloc, program, tables, report, values)?;
    match told {
        Ok(cost) => {
            let text = holds_line(alloc, cost)?;
            Ok(text)
        }
        Err(objection) => {
            let line = objection_line(alloc, objection)?;
            Err(Stop::Told(Why::No, line))
        }
    }
}

// What the run costs, or the first thing that speaks against the report.
fn replayed(
    alloc: Global,
    program: &ScopedProgram,
    tables: &Tables,
    report: &Report,
    values: &[i64],
) -> Result<Result<u64, Objection>, AllocError>
    requires graph { IsGraph (seen program.now.expanded.checked) program.now.expanded.graph }
    requires rows { KeepInputs (seen program.now.expanded.checked) tables.now.rows.items }
    requires outline { IsOutlined program.now.expanded.graph program.now.outline }
    requires one_each { length values.now ≡ length tables.now.rows.items }
    ensures { IfOk result (λ told. IsReplayed (seen program.now.expanded.checked) program.now.expanded.graph.nodes
        tables.now.rows.items program.now.outline (reported report.now) values.now told) }
{
    let expanded = &program.expanded;
    let outline = &program.outline;
    let shaped = is_shaped(alloc, outline, report)?;
    if !shaped {
        return Ok(Err(Objection::NoShape));
    }
    let rows = tables.rows.as_slice();
    let told = run_replays::replay(
        alloc,
        &expanded.checked,
        &expanded.graph,
        outline,
        rows,
        report,
        values,
    )?;
    Ok(told)
}
