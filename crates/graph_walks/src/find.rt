//! A walk between two nodes.

ghost use Rattle.std.specs.Prelude.{◌≡◌, ◌<◌, length, IfOk, IfSome, IfNone};
ghost use Rattle.graph_walks.specs.Tables.{HasEdge, IsClosed, rows_of};
ghost use Rattle.graph_walks.specs.MarkedNodes.{IsBarred, IsPathPast};

use crate::search::search;
use std::alloc::{AllocError, Global};

/// A walk between two nodes that meets no marked node, with no node twice; `None` where each walk
/// meets one.
///
/// `table` has for each node the nodes to which it leads, in any order, repeats allowed, and `marks`
/// has one mark for each node. A walk from a node to itself is that node alone. The walk is not the
/// shortest. Takes time linear in the table, and memory linear in its rows.
pub fn find_walk(
    alloc: Global,
    table: &[Vec<u32>],
    marks: &[bool],
    from: u32,
    to: u32,
) -> Result<Option<Vec<u32>>, AllocError>
    requires closed { IsClosed (rows_of table.now) }
    requires long { length marks.now ≡ length table.now }
    requires inside { from < length table.now }
    ensures walk { IfOk result
        (λ found. IfSome found (λ path. IsPathPast (HasEdge (rows_of table.now)) marks.now from to path.items)) }
    ensures none { IfOk result (λ found. IfNone found (IsBarred (HasEdge (rows_of table.now)) marks.now from to)) }
{
    if marks[from as usize] {
        return Ok(None);
    }
    let mut seen = marks.to_vec(alloc)?;
    search(alloc, table, &mut seen, from, Some(to))
}
