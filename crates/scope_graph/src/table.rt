//! The edges as a table.

ghost use Rattle.std.specs.Prelude.{◌≡◌, ◌<◌, ◌≤◌, ◌-◌, ◌^◌, ℕ, map, IfOk};
ghost use Rattle.domain_core.specs.Reducible.{IsEdge};
ghost use Rattle.scope_graph.specs.Assembled.{flip};
ghost use Rattle.scope_graph.specs.Tables.{IsTable, targets};
ghost use Rattle.graph_walks.specs.Tables.{rows_of};

use std::alloc::{AllocError, Global};

/// For each node the nodes to which it leads, and an empty row for the end.
///
/// Takes time in proportion to nodes times edges.
pub fn successors(
    alloc: Global,
    count: u32,
    edges: &[(u32, u32)],
) -> Result<Vec<Vec<u32>>, AllocError>
    requires few { count < 2 ^ 32 - 1 }
    requires within { (u v : ℕ) → IsEdge edges.now u v → u ≤ count }
    ensures { IfOk result (λ table. IsTable edges.now count (rows_of table.items)) }
{
    let mut table = Vec::new(alloc);
    for node in 0..count + 1 {
        let row = row(alloc, edges, node)?;
        table.push(row)?;
    }
    Ok(table)
}

// The nodes to which edges lead from this one.
fn row(alloc: Global, edges: &[(u32, u32)], node: u32) -> Result<Vec<u32>, AllocError>
    ensures { IfOk result (λ row. row.items ≡ targets edges.now node) }
{
    edges
        .iter()
        .filter(|edge| edge.0 == node)
        .map(|edge| edge.1)
        .collect(alloc)
}

/// For each node the nodes from which edges lead to it. Takes as much time.
pub fn predecessors(
    alloc: Global,
    count: u32,
    edges: &[(u32, u32)],
) -> Result<Vec<Vec<u32>>, AllocError>
    requires few { count < 2 ^ 32 - 1 }
    requires within { (u v : ℕ) → IsEdge edges.now u v → v ≤ count }
    ensures { IfOk result (λ table. IsTable (map flip edges.now) count (rows_of table.items)) }
{
    let turned = turned(alloc, edges)?;
    let table = successors(alloc, count, &turned)?;
    Ok(table)
}

// The edges read from their ends.
fn turned(alloc: Global, edges: &[(u32, u32)]) -> Result<Vec<(u32, u32)>, AllocError>
    ensures { IfOk result (λ turned. turned.items ≡ map flip edges.now) }
{
    edges.iter().map(|edge| (edge.1, edge.0)).collect(alloc)
}
