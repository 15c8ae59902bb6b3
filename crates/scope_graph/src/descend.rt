//! The depth-first walk from node 0.

ghost use Rattle.std.specs.Prelude.{◌≡◌, ◌<◌, ◌++◌, ◌∷◌, [], ◌+◌, ℕ, List, false, length, take, drop, slice_index};
ghost use Rattle.std.specs.Prelude.{slice_index_or, IfOk, MatchOption, Contains};
ghost use Rattle.graph_walks.specs.Walks.{Walk, IsDistinct};
ghost use Rattle.domain_core.specs.Reducible.{Dominates};
ghost use Rattle.graph_walks.specs.Tables.{IsClosed, HasEdge, rows_of};
ghost use Rattle.scope_graph.specs.Tables.{IsAround};
ghost use Rattle.scope_graph.specs.Descending.{IsDescent, IsVisited, IsChecked, IsDescentAnswer, Crosses_in};

use crate::crossing::Crossing;
use graph_walks::find_walk;
use std::alloc::{AllocError, Global};

/// What the depth-first walk shows.
#[derive(Drop)]
pub enum Descent {
    /// The back edges of a reducible graph.
    Back(Vec<(u32, u32)>),
    /// Why the graph is not reducible.
    Crosses(Crossing),
}

/// Walks depth first from node 0, and asks of each edge back to the path at hand whether a walk
/// leads round its target.
pub fn depth_first(alloc: Global, table: &[Vec<u32>]) -> Result<Descent, AllocError>
    requires closed { IsClosed (rows_of table.now) }
    requires some { 0 < length table.now }
    requires reached { (u v : ℕ) → HasEdge (rows_of table.now) u v
        → (path : List ℕ) × Walk (HasEdge (rows_of table.now)) 0 u path }
    ensures { IfOk result (λ answer. IsDescentAnswer (rows_of table.now) answer) }
{
    let mut seen = vec![in alloc; false; table.len()]?;
    let mut path = Vec::new(alloc);
    let mut back = Vec::new(alloc);
    match visit(alloc, table, &mut seen, &mut path, &mut back, 0)? {
        None => Ok(Descent::Back(back)),
        Some(crossing) => Ok(Descent::Crosses(crossing)),
    }
}

// Visits a node, and from it each that has no mark. Goes as deep as the longest path.
fn visit(
    alloc: Global,
    table: &[Vec<u32>],
    seen: &mut [bool],
    path: &mut Vec<u32>,
    back: &mut Vec<(u32, u32)>,
    node: u32,
) -> Result<Option<Crossing>, AllocError>
    requires closed { IsClosed (rows_of table.now) }
    requires long { length seen.old ≡ length table.now }
    requires inside { node < length table.now }
    requires fresh { slice_index_or seen.old node false ≡ false }
    requires walk { Walk (HasEdge (rows_of table.now)) 0 node (path.old.items ++ node ∷ []) }
    requires descent { (order : List ℕ) × IsDescent (rows_of table.now) seen.old path.old.items back.old.items order }
    ensures { IfOk result (λ found. MatchOption found
        (IsVisited (rows_of table.now) node seen.old seen.new path.old.items path.new.items back.old.items
        back.new.items)
        (Crosses_in (rows_of table.now))) }
{
    seen[node as usize] = true;
    path.push(node)?;
    for next in &table[node as usize] {
        if !seen[*next as usize] {
            match visit(alloc, table, seen, path, back, *next)? {
                None => {}
                Some(crossing) => return Ok(Some(crossing)),
            }
        } else {
            match look_back(alloc, table, path, back, node, *next)? {
                None => {}
                Some(crossing) => return Ok(Some(crossing)),
            }
        }
    }
    path.pop();
    Ok(None)
}

// Looks at an edge from the last node of the path to a marked one.
fn look_back(
    alloc: Global,
    table: &[Vec<u32>],
    path: &[u32],
    back: &mut Vec<(u32, u32)>,
    node: u32,
    next: u32,
) -> Result<Option<Crossing>, AllocError>
    requires closed { IsClosed (rows_of table.now) }
    requires inside { next < length table.now }
    requires edge { HasEdge (rows_of table.now) node next }
    requires walk { Walk (HasEdge (rows_of table.now)) 0 node path.now }
    requires once { IsDistinct path.now }
    ensures { IfOk result (λ found. MatchOption found
        (IsChecked (rows_of table.now) path.now node next back.old.items back.new.items)
        (Crosses_in (rows_of table.now))) }
{
    let Some(at) = place_of(path, next) else {
        return Ok(None);
    };
    match walk_around(alloc, table, node, next)? {
        None => {
            back.push((node, next))?;
            Ok(None)
        }
        Some(around) => Ok(Some(crossing_at(alloc, path, at, around)?)),
    }
}

// The path cut at a place, and the walk round it.
fn crossing_at(
    alloc: Global,
    path: &[u32],
    at: usize,
    around: Vec<u32>,
) -> Result<Crossing, AllocError>
    requires { at < length path.now }
    ensures header { IfOk result (λ crossing. crossing.to_header.items ≡ take (at + 1) path.now) }
    ensures tail { IfOk result (λ crossing. crossing.to_tail.items ≡ drop at path.now) }
    ensures around { IfOk result (λ crossing. crossing.around.items ≡ around.items) }
{
    let to_header = path[..at + 1].to_vec(alloc)?;
    let to_tail = path[at..].to_vec(alloc)?;
    Ok(Crossing {
        to_header,
        to_tail,
        around,
    })
}

// A place of the node on the path.
fn place_of(path: &[u32], node: u32) -> Option<usize>
    ensures { MatchOption result (Contains path.now node → ⊥)
        (λ at. (at < length path.now) × (slice_index path.now at ≡ node)) }
{
    path.iter().position(|other| *other == node)
}

// A walk from node 0 to another that avoids a third, if there is one.
fn walk_around(
    alloc: Global,
    table: &[Vec<u32>],
    to: u32,
    without: u32,
) -> Result<Option<Vec<u32>>, AllocError>
    requires closed { IsClosed (rows_of table.now) }
    requires some { 0 < length table.now }
    requires inside { without < length table.now }
    ensures { IfOk result (λ found. MatchOption found (Dominates (HasEdge (rows_of table.now)) without to)
        (λ walk. IsAround (rows_of table.now) to without walk.items)) }
{
    let mut marks = vec![in alloc; false; table.len()]?;
    marks[without as usize] = true;
    match find_walk(alloc, table, &marks, 0, to)? {
        None => Ok(None),
        Some(walk) => Ok(Some(walk)),
    }
}
