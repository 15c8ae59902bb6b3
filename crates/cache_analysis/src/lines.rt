//! The lines of nodes.

ghost use Rattle.std.specs.Prelude.{◌≡◌, ◌≤◌, OnOk};
ghost use Rattle.alf_check.specs.CheckedPrograms.{seen};
ghost use Rattle.flow_graph.specs.Numbering.{IsGraph};
ghost use Rattle.line_cache.specs.Lines.{IsShape, notes_of};
ghost use Rattle.code_layout.specs.Layouts.{all_statements, most_statements, parts_of};

use alf_check::Checked;
use code_layout::parts;
use domain_core::Outline;
use flow_graph::{Graph, graphs_are_expansions};
use line_cache::{Shape, notes};
use std::alloc::{AllocError, Global};

/// Writes the cache and the lines of each node of the graph into the notes of the outline, and leaves all else as it
/// is.
///
/// The program has no more statements than are laid out. Takes time by the nodes times the blocks.
pub fn set_lines(
    alloc: Global,
    checked: &Checked,
    graph: &Graph,
    shape: Shape,
    outline: &mut Outline,
) -> Result<(), AllocError>
    requires graph { IsGraph (seen checked.now) graph.now }
    requires few { all_statements (seen checked.now) ≤ most_statements }
    requires shape { IsShape shape }
    ensures { OnOk result
        (outline.new ≡ record outline.old { notes = notes_of shape (parts_of (seen checked.now) graph.now) }) }
{
    checked.keeps();
    graphs_are_expansions();
    let parts = parts(alloc, checked, graph)?;
    let notes = notes(alloc, shape, &parts)?;
    outline.set_notes(notes);
    Ok(())
}
