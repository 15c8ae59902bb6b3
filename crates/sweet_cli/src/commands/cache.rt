//! `cache FILE`: what the runs of the program cost with the misses of an instruction cache.

ghost use Rattle.std.specs.Prelude.{◌≡◌, ◌≤◌, IfOk};
ghost use Rattle.alf_check.specs.CheckedPrograms.{seen};
ghost use Rattle.alf_check.specs.Inputs.{KeepInputs};
ghost use Rattle.flow_graph.specs.Numbering.{IsGraph};
ghost use Rattle.program_machines.specs.NodeCosts.{HasCosts};
ghost use Rattle.line_cache.specs.Lines.{IsShape, notes_of};
ghost use Rattle.code_layout.specs.Layouts.{all_statements, most_statements, parts_of};
ghost use Rattle.cached_runs.specs.Answers.{lines_of};
ghost use Rattle.cache_analysis.specs.CodeAccesses.{HasCodeNotes};
ghost use Rattle.cache_analysis.specs.Sound.{IsSoundCache};
ghost use Rattle.command_plans.specs.Works.{Works, Judges};
ghost use Rattle.command_files.specs.Seen.{IsOutlined, scoped_of};
ghost use Rattle.sweet_cli.specs.Words.{IsCacheWithin, cache_meant};
ghost use Rattle.sweet_cli.specs.Analyse.{policy_of};
ghost use Rattle.sweet_cli.specs.Task.{IsPromised};
ghost use Rattle.sweet_cli.specs.Cache.{cache, CacheMeans, caching};

use crate::commands::analyse::{policy, priced};
use crate::words::{CacheWords, Merging};
use answer_texts::{cache_text, left_line};
use cache_analysis::{a_program_has_one_cache_analysis, set_lines};
use cached_runs::{Cached, CachedLines};
use command_files::{ScopedProgram, Tables, laid_out_in, tables_in};
use command_plans::{Stop, Why};
use cost_table::a_file_has_one_answer;
use flow_base::Shelf;
use line_cache::Shape;
use std::alloc::{AllocError, Global};
use worklist_rules::Policy;

/// The text that tells hits and a bound.
#[tactic(auto, unfolding(crate::specs::Cache::caching))]
pub fn cache<F: Shelf>(alloc: Global, given: CacheWords<'_>, shelf: &mut F) -> Result<Vec<u8>, Stop>
    requires ranges { IsCacheWithin (cache_meant given) }
    ensures work { Works (caching (cache_meant given.entry)) (λ text. text.items)
        (F.state shelf.old) result (F.state shelf.new) }
    ensures promise { IfOk result
        (λ text. IsPromised (cache (cache_meant given.entry)) (F.state shelf.old) (F.state shelf.new) text.items) }
{
    a_file_has_one_answer();
    let program = laid_out_in(alloc, given.program, given.root, shelf)?;
    let tables = tables_in(
        alloc,
        &program.expanded.checked,
        given.inputs,
        given.costs,
        shelf,
    )?;
    let shape = Shape {
        sets: given.sets,
        ways: given.ways,
        line: given.line,
        penalty: given.penalty,
    };
    let lines = cached_in(alloc, program, &tables, shape, given.merging, given.turns)?;
    let text = cache_text(alloc, &lines)?;
    Ok(text)
}

// What is told of the cache, with these costs of blocks.
fn cached_in(
    alloc: Global,
    program: ScopedProgram,
    tables: &Tables,
    shape: Shape,
    merging: Merging,
    turns: u32,
) -> Result<CachedLines, Stop>
    requires few { all_statements (seen program.expanded.checked) ≤ most_statements }
    requires graph { IsGraph (seen program.expanded.checked) program.expanded.graph }
    requires rows { KeepInputs (seen program.expanded.checked) tables.now.rows.items }
    requires outline { IsOutlined program.expanded.graph program.outline }
    requires shape { IsShape shape }
    requires turns { turns ≤ 1000000 }
    ensures means { Judges
        (CacheMeans (scoped_of program) tables.now.rows.items tables.now.costs shape (policy_of merging)
        turns) lines_of result }
    ensures sound { IfOk result (λ lines. IsSoundCache (seen program.expanded.checked) program.expanded.graph
        tables.now.rows.items shape tables.now.costs (lines_of lines)) }
{
    let program = priced(program, &tables.costs);
    let noted = noted(alloc, program, shape)?;
    explored(alloc, &noted, tables, shape, policy(merging), turns)
}

// The program, whose outline has the notes of the cache and of the lines of its nodes.
fn noted(
    alloc: Global,
    mut program: ScopedProgram,
    shape: Shape,
) -> Result<ScopedProgram, AllocError>
    requires few { all_statements (seen program.expanded.checked) ≤ most_statements }
    requires graph { IsGraph (seen program.expanded.checked) program.expanded.graph }
    requires shape { IsShape shape }
    ensures { IfOk result (λ noted. noted ≡ record program {
      outline = record program.outline {
        notes = notes_of shape (parts_of (seen program.expanded.checked) program.expanded.graph);
      };
    }) }
{
    set_lines(
        alloc,
        &program.expanded.checked,
        &program.expanded.graph,
        shape,
        &mut program.outline,
    )?;
    Ok(program)
}

// What is told of the cache, where the outline says what nodes cost and which lines they have.
fn explored(
    alloc: Global,
    program: &ScopedProgram,
    tables: &Tables,
    shape: Shape,
    policy: Policy,
    turns: u32,
) -> Result<CachedLines, Stop>
    requires few { all_statements (seen program.now.expanded.checked) ≤ most_statements }
    requires graph { IsGraph (seen program.now.expanded.checked) program.now.expanded.graph }
    requires rows { KeepInputs (seen program.now.expanded.checked) tables.now.rows.items }
    requires outline { IsOutlined program.now.expanded.graph program.now.outline }
    requires shape { IsShape shape }
    requires costs { HasCosts (seen program.now.expanded.checked) program.now.expanded.graph tables.now.costs
        program.now.outline }
    requires noted { HasCodeNotes (seen program.now.expanded.checked) program.now.expanded.graph shape
        program.now.outline }
    requires turns { turns ≤ 1000000 }
    ensures means { Judges
        (CacheMeans (scoped_of program.now) tables.now.rows.items tables.now.costs shape policy turns)
        lines_of result }
    ensures sound { IfOk result (λ lines. IsSoundCache (seen program.now.expanded.checked) program.now.expanded.graph
        tables.now.rows.items shape tables.now.costs (lines_of lines)) }
{
    let expanded = &program.expanded;
    let outline = &program.outline;
    a_program_has_one_cache_analysis();
    let rows = tables.rows.as_slice();
    match cache_analysis::analyse(
        alloc,
        &expanded.checked,
        &expanded.graph,
        outline,
        shape,
        rows,
        policy,
        turns,
    )? {
        Cached::Told(lines) => Ok(lines),
        Cached::Unbounded(scope) => {
            let line = left_line(alloc, &expanded.graph, outline, scope)?;
            Err(Stop::Told(Why::Unbounded, line))
        }
    }
}
