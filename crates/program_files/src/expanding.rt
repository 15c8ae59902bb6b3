//! The program that a command reads, with its graph.

ghost use Rattle.std.specs.Prelude.{[], ◌∷◌, IfOk};
ghost use Rattle.alf_check.specs.CheckedPrograms.{seen};
ghost use Rattle.flow_graph.specs.Numbering.{IsGraph};
ghost use Rattle.sweet_words.specs.Files.{file_name};
ghost use Rattle.sweet_words.specs.Meant.{file_meant};
ghost use Rattle.command_plans.specs.Works.{Works, Judges, OverRead};
ghost use Rattle.program_files.specs.Expanding.{lowered_in, checked_in, GraphMeans, expanded_in};
ghost use Rattle.program_files.specs.Seen.{expanded_of};
ghost use Rattle.program_files.specs.Told.{IsProgramOfUnit, IsToldProgram};

use crate::lines::graph_line;
use crate::programs::numbered_in;
use crate::units::checked_unit_in;
use alf_check::Checked;
use c_lower::lower;
use command_plans::{Stop, Why};
use flow_base::Shelf;
use flow_graph::{Graph, a_program_has_one_graph, limits_exclude_each_other};
use std::alloc::Global;
use sweet_words::ProgramFile;

/// A checked program and its graph.
#[derive(Drop)]
pub struct Expanded {
    pub checked: Checked,
    pub graph: Graph,
}

// The program that the unit in the file is lowered to.
#[tactic(auto, unfolding(crate::specs::Expanding::lowered_in))]
fn lowered_in<F: Shelf>(
    alloc: Global,
    file: &str,
    root: &str,
    shelf: &mut F,
) -> Result<Checked, Stop>
    ensures work { Works (lowered_in file.now root.now) seen (F.state shelf.old) result (F.state shelf.new) }
    ensures told { IfOk result
        (λ checked. OverRead (F.state shelf.old) (F.state shelf.new) (file.now ∷ [])
        (λ files. IsProgramOfUnit file.now root.now files (seen checked))) }
{
    let program = checked_unit_in(alloc, file, root, shelf)?;
    let checked = lower(alloc, &program)?;
    Ok(checked)
}

/// The program in the file, where it passes the checks.
pub fn checked_in<F: Shelf>(
    alloc: Global,
    program: ProgramFile<'_>,
    root: &str,
    shelf: &mut F,
) -> Result<Checked, Stop>
    ensures work { Works (checked_in (file_meant program.entry) root.now) seen (F.state shelf.old) result
        (F.state shelf.new) }
    ensures told { IfOk result
        (λ checked. OverRead (F.state shelf.old) (F.state shelf.new) (file_name (file_meant program.entry) ∷ [])
        (λ files. IsToldProgram (file_meant program.entry) root.now files (seen checked))) }
{
    match program {
        ProgramFile::Alf(file) => numbered_in(alloc, file, root, shelf),
        ProgramFile::C(file) => lowered_in(alloc, file, root, shelf),
    }
}

/// The graph of the program, or the line of the limit that it passes.
pub fn graph_of(alloc: Global, checked: &Checked) -> Result<Graph, Stop>
    ensures means { Judges (GraphMeans (seen checked.now)) (λ graph. graph) result }
    ensures graph { IfOk result (λ graph. IsGraph (seen checked.now) graph) }
{
    a_program_has_one_graph();
    limits_exclude_each_other();
    match Graph::expand(alloc, checked) {
        Ok(graph) => Ok(graph),
        Err(fault) => match graph_line(alloc, &fault) {
            Ok(line) => Err(Stop::Told(Why::Source, line)),
            Err(_) => Err(Stop::Memory),
        },
    }
}

/// The program in the file, checked and expanded.
#[tactic(auto, unfolding(crate::specs::Expanding::expanded_in))]
pub fn expanded_in<F: Shelf>(
    alloc: Global,
    program: ProgramFile<'_>,
    root: &str,
    shelf: &mut F,
) -> Result<Expanded, Stop>
    ensures work { Works (expanded_in (file_meant program.entry) root.now) expanded_of (F.state shelf.old) result
        (F.state shelf.new) }
    ensures graph { IfOk result (λ expanded. IsGraph (seen expanded.checked) expanded.graph) }
    ensures told { IfOk result
        (λ expanded. OverRead (F.state shelf.old) (F.state shelf.new) (file_name (file_meant program.entry) ∷ [])
        (λ files. IsToldProgram (file_meant program.entry) root.now files (seen expanded.checked))) }
{
    let checked = checked_in(alloc, program, root, shelf)?;
    let graph = graph_of(alloc, &checked)?;
    Ok(Expanded { checked, graph })
}
