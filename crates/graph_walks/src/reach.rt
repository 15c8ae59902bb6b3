//! What a node reaches.

ghost use Rattle.std.specs.Prelude.{◌≡◌, ◌<◌, ℕ, length, OnOk, ◌⊎◌};
ghost use Rattle.graph_walks.specs.Tables.{HasEdge, IsClosed, rows_of};
ghost use Rattle.graph_walks.specs.MarkedNodes.{IsMarked, KeepsMarks, ReachesPast};

use crate::search::search;
use std::alloc::{AllocError, Global};

/// Marks what a node reaches by walks that meet no marked node, the node itself among it.
///
/// `table` has for each node the nodes to which it leads, in any order, repeats allowed, and `marks`
/// has one mark for each node. From a marked node nothing is reached so. Where memory runs out,
/// some of what is reached may be marked. Takes time linear in the table, and memory linear in its
/// rows.
pub fn mark_reached(
    alloc: Global,
    table: &[Vec<u32>],
    marks: &mut [bool],
    from: u32,
) -> Result<(), AllocError>
    requires closed { IsClosed (rows_of table.now) }
    requires long { length marks.old ≡ length table.now }
    requires inside { from < length table.now }
    ensures kept { KeepsMarks marks.old marks.new }
    ensures reached { (n : ℕ) → IsMarked marks.new n
        → IsMarked marks.old n ⊎ ReachesPast (HasEdge (rows_of table.now)) marks.old from n }
    ensures all { OnOk result
        ((n : ℕ) → ReachesPast (HasEdge (rows_of table.now)) marks.old from n → IsMarked marks.new n) }
{
    if !marks[from as usize] {
        search(alloc, table, marks, from, None)?;
    }
    Ok(())
}
