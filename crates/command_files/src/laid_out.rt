//! The program that a command lays out in memory, with the scopes of its graph.

ghost use Rattle.std.specs.Prelude.{◌≡◌, ◌≤◌, IfOk, [], ◌∷◌};
ghost use Rattle.alf_check.specs.CheckedPrograms.{seen};
ghost use Rattle.flow_graph.specs.Numbering.{IsGraph};
ghost use Rattle.code_layout.specs.Layouts.{all_statements, most_statements};
ghost use Rattle.command_plans.specs.Works.{Works, Judges, OverRead};
ghost use Rattle.program_files.specs.Told.{IsToldProgram};
ghost use Rattle.sweet_words.specs.Files.{file_name};
ghost use Rattle.sweet_words.specs.Meant.{file_meant};
ghost use Rattle.command_files.specs.Seen.{IsOutlined, scoped_of};
ghost use Rattle.command_files.specs.LaidOut.{LaysOut, short_in, laid_out_in};

use crate::scopes::{ScopedProgram, scopes_of};
use alf_check::Checked;
use code_layout::{MOST_STATEMENTS, statement_count};
use command_plans::{Stop, Why};
use flow_base::{Shelf, Which};
use program_files::{Expanded, checked_in, graph_of, limit_line};
use std::alloc::Global;
use sweet_words::ProgramFile;

/// The program in the file, where it passes the checks and has no more statements than are laid out,
/// with its graph and scopes.
#[tactic(auto, unfolding(crate::specs::LaidOut::laid_out_in))]
pub fn laid_out_in<F: Shelf>(
    alloc: Global,
    program: ProgramFile<'_>,
    root: &str,
    shelf: &mut F,
) -> Result<ScopedProgram, Stop>
    ensures work { Works (laid_out_in (file_meant program.entry) root.now) scoped_of
        (F.state shelf.old) result (F.state shelf.new) }
    ensures few { IfOk result (λ program. all_statements (seen program.expanded.checked) ≤ most_statements) }
    ensures graph { IfOk result (λ program. IsGraph (seen program.expanded.checked) program.expanded.graph) }
    ensures outline { IfOk result (λ program. IsOutlined program.expanded.graph program.outline) }
    ensures told { IfOk result (λ scoped. OverRead (F.state shelf.old) (F.state shelf.new)
        (file_name (file_meant program.entry) ∷ [])
        (λ files. IsToldProgram (file_meant program.entry) root.now files (scoped_of scoped).expanded.program)) }
{
    let checked = short_in(alloc, program, root, shelf)?;
    let graph = graph_of(alloc, &checked)?;
    let outline = scopes_of(alloc, &graph)?;
    let expanded = Expanded { checked, graph };
    Ok(ScopedProgram { expanded, outline })
}

// The program in the file, where it passes the checks and has no more statements.
#[tactic(auto, unfolding(crate::specs::LaidOut::short_in))]
fn short_in<F: Shelf>(
    alloc: Global,
    program: ProgramFile<'_>,
    root: &str,
    shelf: &mut F,
) -> Result<Checked, Stop>
    ensures work { Works (short_in (file_meant program.entry) root.now) seen
        (F.state shelf.old) result (F.state shelf.new) }
    ensures few { IfOk result (λ checked. all_statements (seen checked) ≤ most_statements) }
    ensures told { IfOk result (λ checked. OverRead (F.state shelf.old) (F.state shelf.new)
        (file_name (file_meant program.entry) ∷ [])
        (λ files. IsToldProgram (file_meant program.entry) root.now files (seen checked))) }
{
    let checked = checked_in(alloc, program, root, shelf)?;
    laid_out(alloc, checked)
}

// The program, where it has no more statements than are laid out.
fn laid_out(alloc: Global, checked: Checked) -> Result<Checked, Stop>
    ensures means { Judges (LaysOut (seen checked)) seen result }
    ensures few { IfOk result (λ same. all_statements (seen same) ≤ most_statements) }
    ensures same { IfOk result (λ same. same ≡ checked) }
{
    if statement_count(&checked) > MOST_STATEMENTS {
        let line = limit_line(alloc, Which::Statements, 65_537)?;
        return Err(Stop::Told(Why::Source, line));
    }
    Ok(checked)
}
