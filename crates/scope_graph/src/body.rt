//! The bodies of loops, by searches against the edges.

ghost use Rattle.std.specs.Prelude.{◌≡◌, ◌<◌, ℕ, true, false, length, replicate, IfOk, OnOk, Contains, slice_set};
ghost use Rattle.graph_walks.specs.Tables.{IsClosed, rows_of};
ghost use Rattle.scope_graph.specs.LoopBodies.{IsBackward};

use graph_walks::mark_reached;
use std::alloc::{AllocError, Global};

/// Marks the header, and each node that reaches a source of a back edge to it without passing it.
///
/// The table leads from each node to its predecessors. Takes time linear in it.
pub fn loop_body(
    alloc: Global,
    table: &[Vec<u32>],
    back: &[(u32, u32)],
    header: u32,
) -> Result<Vec<bool>, AllocError>
    requires closed { IsClosed (rows_of table.now) }
    requires inside { header < length table.now }
    requires sources { (u h : ℕ) → Contains back.now (u, h) → u < length table.now }
    ensures { IfOk result (λ seen. IsBackward (rows_of table.now) back.now header seen.items) }
{
    let mut seen = vec![in alloc; false; table.len()]?;
    seen[header as usize] = true;
    mark_body(alloc, table, &mut seen, back, header)?;
    Ok(seen)
}

// Marks what reaches a source of a back edge to the header, where the header alone is marked.
fn mark_body(
    alloc: Global,
    table: &[Vec<u32>],
    seen: &mut [bool],
    back: &[(u32, u32)],
    header: u32,
) -> Result<(), AllocError>
    requires closed { IsClosed (rows_of table.now) }
    requires inside { header < length table.now }
    requires sources { (u h : ℕ) → Contains back.now (u, h) → u < length table.now }
    requires clear { seen.old ≡ slice_set (replicate (length table.now) false) header true }
    ensures { OnOk result (IsBackward (rows_of table.now) back.now header seen.new) }
{
    for edge in back {
        if edge.1 == header {
            mark_reached(alloc, table, seen, edge.0)?;
        }
    }
    Ok(())
}
