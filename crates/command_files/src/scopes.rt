//! The program that a command reads, with the scopes of its graph.

ghost use Rattle.std.specs.Prelude.{IfOk, [], ◌∷◌};
ghost use Rattle.alf_check.specs.CheckedPrograms.{seen};
ghost use Rattle.flow_graph.specs.Numbering.{IsGraph};
ghost use Rattle.command_plans.specs.Works.{Works, Judges, OverRead};
ghost use Rattle.program_files.specs.Told.{IsToldProgram};
ghost use Rattle.sweet_words.specs.Files.{file_name};
ghost use Rattle.sweet_words.specs.Meant.{file_meant};
ghost use Rattle.command_files.specs.Scopes.{ScopesMean, scoped_in};
ghost use Rattle.command_files.specs.Seen.{IsOutlined, scopes_seen, scoped_of};

use answer_texts::irreducible_line;
use command_plans::{Stop, Why};
use domain_core::{Outline, crossing_is_irreducible};
use flow_base::Shelf;
use flow_graph::Graph;
use program_files::{Expanded, expanded_in};
use scope_graph::{OutlineFault, a_graph_has_one_outline, outline};
use std::alloc::Global;
use sweet_words::ProgramFile;

/// A program and its graph, and the scopes of the graph.
#[derive(Drop)]
pub struct ScopedProgram {
    pub expanded: Expanded,
    pub outline: Outline,
}

/// The program in the file, checked, expanded and given scopes.
#[tactic(auto, unfolding(crate::specs::Scopes::scoped_in))]
pub fn scoped_in<F: Shelf>(
    alloc: Global,
    program: ProgramFile<'_>,
    root: &str,
    shelf: &mut F,
) -> Result<ScopedProgram, Stop>
    ensures work { Works (scoped_in (file_meant program.entry) root.now) scoped_of (F.state shelf.old) result
        (F.state shelf.new) }
    ensures graph { IfOk result (λ program. IsGraph (seen program.expanded.checked) program.expanded.graph) }
    ensures outline { IfOk result (λ program. IsOutlined program.expanded.graph program.outline) }
    ensures told { IfOk result
        (λ scoped. OverRead (F.state shelf.old) (F.state shelf.new)
        (file_name (file_meant program.entry) ∷ [])
        (λ files. IsToldProgram (file_meant program.entry) root.now files (scoped_of scoped).expanded.program)) }
{
    let expanded = expanded_in(alloc, program, root, shelf)?;
    let outline = scopes_of(alloc, &expanded.graph)?;
    Ok(ScopedProgram { expanded, outline })
}

/// The scopes of the graph, or the line of walks into a loop with two ways in.
pub fn scopes_of(alloc: Global, graph: &Graph) -> Result<Outline, Stop>
    ensures means { Judges (ScopesMean graph.now) (λ outline. scopes_seen outline) result }
    ensures outline { IfOk result (λ outline. IsOutlined graph.now outline) }
{
    graph.keeps();
    a_graph_has_one_outline();
    crossing_is_irreducible();
    match outline(alloc, graph) {
        Ok(outline) => Ok(outline),
        Err(
            OutlineFault::Irreducible {
                to_header,
                to_tail,
                around,
            },
        ) => match irreducible_line(alloc, graph, &to_header, &to_tail, &around) {
            Ok(line) => Err(Stop::Told(Why::Example, line)),
            Err(_) => Err(Stop::Memory),
        },
        Err(OutlineFault::Memory) => Err(Stop::Memory),
    }
}
