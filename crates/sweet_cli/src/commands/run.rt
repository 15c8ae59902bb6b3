//! `run FILE`: one run of the program, told.

ghost use Rattle.std.specs.Prelude.{◌≡◌, ◌≤◌, All, IfOk};
ghost use Rattle.alf_check.specs.declared.rows.InputRow.{InputRow};
ghost use Rattle.alf_check.specs.CheckedPrograms.{seen};
ghost use Rattle.alf_check.specs.Inputs.{KeepInputs};
ghost use Rattle.flow_graph.specs.Numbering.{IsGraph};
ghost use Rattle.command_plans.specs.Works.{Works, Judges};
ghost use Rattle.alf_ops.specs.TwosComplement.{word};
ghost use Rattle.command_files.specs.Seen.{scopes_seen, scoped_of};
ghost use Rattle.sweet_cli.specs.Words.{run_meant};
ghost use Rattle.sweet_cli.specs.LeftLines.{own_scope, unbounded_line};
ghost use Rattle.sweet_cli.specs.Task.{IsPromised};
ghost use Rattle.sweet_cli.specs.Run.{run, low_words, RunMeans, running};

use crate::commands::counting::counted;
use crate::words::RunWords;
use alf_check::InputRow;
use alf_interp::Counted;
use alf_runs::{a_run_has_one_end, active_frames_follow_the_call_path};
use answer_texts::{left_line, run_text};
use command_files::{ScopedProgram, Tables, scoped_in, tables_in};
use command_plans::{Stop, Why};
use cost_table::a_file_has_one_answer;
use domain_core::Outline;
use flow_base::Shelf;
use flow_graph::graphs_are_expansions;
use std::alloc::{AllocError, Global};
use whole_numbers::Whole;

/// The text that tells the run.
#[tactic(auto, unfolding(crate::specs::Run::running))]
pub fn run<F: Shelf>(alloc: Global, given: RunWords<'_>, shelf: &mut F) -> Result<Vec<u8>, Stop>
    ensures work { Works (running (run_meant given.entry)) (λ text. text.items) (F.state shelf.old) result
        (F.state shelf.new) }
    ensures promise { IfOk result
        (λ text. IsPromised (run (run_meant given.entry)) (F.state shelf.old) (F.state shelf.new) text.items) }
{
    a_file_has_one_answer();
    let program = scoped_in(alloc, given.program, given.root, shelf)?;
    let tables = tables_in(
        alloc,
        &program.expanded.checked,
        given.inputs,
        given.costs,
        shelf,
    )?;
    let text = told(alloc, &program, &tables, given.turns)?;
    Ok(text)
}

// What is told of the run whose inputs are the low ends of their ranges.
fn told(
    alloc: Global,
    program: &ScopedProgram,
    tables: &Tables,
    turns: u32,
) -> Result<Vec<u8>, Stop>
    requires graph { IsGraph (seen program.now.expanded.checked) program.now.expanded.graph }
    requires rows { KeepInputs (seen program.now.expanded.checked) tables.now.rows.items }
    ensures { Judges (RunMeans (scoped_of program.now) tables.now.rows.items tables.now.costs turns)
        (λ text. text.items) result }
{
    let expanded = &program.expanded;
    expanded.checked.keeps();
    a_run_has_one_end();
    graphs_are_expansions();
    active_frames_follow_the_call_path();
    let rows = tables.rows.as_slice();
    let words = low_words(alloc, rows)?;
    match counted(alloc, expanded, rows, &words, &tables.costs, turns)? {
        Counted::Over(tally) => {
            let text = run_text(alloc, &expanded.checked, &expanded.graph, &tally)?;
            Ok(text)
        }
        Counted::Left(n) => {
            let line = unbounded_line(alloc, program, n)?;
            Err(Stop::Told(Why::Unbounded, line))
        }
    }
}

// The line of a run with more nodes than the turns, where this node comes after so many.
fn unbounded_line(alloc: Global, program: &ScopedProgram, n: u32) -> Result<Vec<u8>, AllocError>
    ensures { IfOk result (λ line. line.items ≡ unbounded_line (scoped_of program.now) n) }
{
    let outline = &program.outline;
    let line = left_line(
        alloc,
        &program.expanded.graph,
        outline,
        own_scope(outline, n),
    )?;
    Ok(line)
}

// The scope of a node.
fn own_scope(outline: &Outline, n: u32) -> u32
    ensures { result ≡ own_scope (scopes_seen outline.now) n }
{
    if n < outline.node_count() {
        return outline.node(n).scope;
    }
    0
}

// The words of the low ends of the ranges.
fn low_words(alloc: Global, rows: &[InputRow]) -> Result<Vec<u64>, AllocError>
    requires { All (λ (row : InputRow). row.size ≤ 64) rows.now }
    ensures { IfOk result (λ words. words.items ≡ low_words rows.now) }
{
    let mut words = Vec::new(alloc);
    for row in rows {
        words.push(low_word(row))?;
    }
    Ok(words)
}

// The word of the low end of a range.
fn low_word(row: &InputRow) -> u64
    requires { row.now.size ≤ 64 }
    ensures { result ≡ word row.now.size row.now.low }
{
    Whole::of(row.low)
        .rest(Whole::power_of_two(row.size))
        .word()
}
