//! A depth-first search that marks what it sees.

ghost use Rattle.std.specs.Prelude.{◌≡◌, ◌<◌, ℕ, true, false, length, [], slice_index_or, OnOk, OnErr, IfOk};
ghost use Rattle.std.specs.Prelude.{MatchOption, ◌⊎◌};
ghost use Rattle.graph_walks.specs.Tables.{HasEdge, IsClosed, rows_of};
ghost use Rattle.graph_walks.specs.MarkedNodes.{IsMarked, KeepsMarks, ReachesPast};
ghost use Rattle.graph_walks.specs.Searching.{IsSpread, IsMet, GoesOn, GoesBack};

use crate::fresh::fresh_place;
use std::alloc::{AllocError, Global};

/// Marks what a node without a mark reaches by nodes that have none, until the goal is met.
///
/// The path leads from the node to the one that the search stands at, so it is the answer where
/// that one is the goal. Each row is gone through once.
pub fn search(
    alloc: Global,
    table: &[Vec<u32>],
    marks: &mut [bool],
    from: u32,
    goal: Option<u32>,
) -> Result<Option<Vec<u32>>, AllocError>
    requires closed { IsClosed (rows_of table.now) }
    requires long { length marks.old ≡ length table.now }
    requires inside { from < length table.now }
    requires clear { slice_index_or marks.old from false ≡ false }
    ensures kept { KeepsMarks marks.old marks.new }
    ensures reached { (n : ℕ) → IsMarked marks.new n
        → IsMarked marks.old n ⊎ ReachesPast (HasEdge (rows_of table.now)) marks.old from n }
    ensures found { IfOk result (λ found. MatchOption found (IsSpread (rows_of table.now) marks.old from goal marks.new)
        (λ path. IsMet (rows_of table.now) marks.old from goal path.items)) }
{
    let mut looked = vec![in alloc; 0usize; table.len()]?;
    let looked = looked.as_mut_slice();
    let mut path = Vec::new(alloc);
    path.push(from)?;
    marks[from as usize] = true;
    while let Some(node) = path.last().copied() {
        if is_goal(goal, node) {
            return Ok(Some(path));
        }
        step(table, marks, looked, &mut path, node)?;
    }
    Ok(None)
}

// Goes on from the last node of the path, or leaves it where all to which it leads is marked.
fn step(
    table: &[Vec<u32>],
    marks: &mut [bool],
    looked: &mut [usize],
    path: &mut Vec<u32>,
    node: u32,
) -> Result<(), AllocError>
    requires closed { IsClosed (rows_of table.now) }
    requires long { length marks.old ≡ length table.now }
    requires rows { length looked.old ≡ length table.now }
    requires inside { node < length table.now }
    ensures ok { let row = slice_index_or (rows_of table.now) node [] in
        OnOk result (GoesOn row node marks.old looked.old path.old.items marks.new looked.new path.new.items
        ⊎ GoesBack row node marks.old looked.old path.old.items marks.new looked.new path.new.items) }
    ensures err { OnErr result (marks.new ≡ marks.old) }
{
    let row = table[node as usize].as_slice();
    match fresh_place(row, marks, looked[node as usize]) {
        None => {
            path.pop();
            Ok(())
        }
        Some(place) => {
            path.push(row[place])?;
            marks[row[place] as usize] = true;
            looked[node as usize] = place;
            Ok(())
        }
    }
}

// Whether the node is the goal.
fn is_goal(goal: Option<u32>, node: u32) -> bool
    ensures met { result ≡ true → goal ≡ Some node }
    ensures other { result ≡ false → goal ≡ Some node → ⊥ }
{
    match goal {
        Some(wanted) => wanted == node,
        None => false,
    }
}
