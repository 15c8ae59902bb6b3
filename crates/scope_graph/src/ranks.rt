//! Ranks of the nodes of a reducible graph.

ghost use Rattle.std.specs.Prelude.{◌≡◌, ◌<◌, ◌-◌, ◌^◌, ℕ, suc, true, false, filter, replicate, length, slice_index};
ghost use Rattle.std.specs.Prelude.{IfOk};
ghost use Rattle.graph_walks.specs.Tables.{rows_of};
ghost use Rattle.domain_core.specs.Reducible.{IsEdge, IsRanking, IsFalling};
ghost use Rattle.scope_graph.specs.Descending.{IsBackList};
ghost use Rattle.scope_graph.specs.Ranking.{Into, IsDue, IsStage, IsChoice, IsWithin, is_noted, is_forward};

use crate::table::predecessors;
use std::alloc::{AllocError, Global};

/// The rank of each node: the next goes to the least node without one all of whose predecessors by
/// edges other than back edges have one.
///
/// Takes time in proportion to nodes times edges: for each rank, the predecessors of each node that
/// has none are looked at.
pub fn ranks_of(
    alloc: Global,
    count: u32,
    edges: &[(u32, u32)],
    back: &[(u32, u32)],
) -> Result<Vec<u32>, AllocError>
    requires few { count < 2 ^ 32 - 1 }
    requires within { IsWithin edges.now count }
    requires noted { IsBackList (IsEdge edges.now) back.now }
    requires falling { (number : ℕ → ℕ) × IsFalling (IsEdge edges.now) number }
    ensures { IfOk result (λ ranks. IsRanking (IsEdge edges.now) count ranks.items) }
{
    let forward = forward_edges(alloc, edges, back)?;
    let into = predecessors(alloc, count, &forward)?;
    let ranks = ranked(alloc, count, &into)?;
    Ok(ranks)
}

// The ranks by a table that has for each node those that come before it.
fn ranked(alloc: Global, count: u32, into: &[Vec<u32>]) -> Result<Vec<u32>, AllocError>
    requires long { length into.now ≡ suc count }
    requires within { (u n : ℕ) → Into (rows_of into.now) u n → u < count }
    requires falling { (number : ℕ → ℕ) × ((u n : ℕ) → Into (rows_of into.now) u n → number n < number u) }
    ensures { IfOk result (λ ranks. IsStage (Into (rows_of into.now)) count count ranks.items) }
{
    let mut ranks = vec![in alloc; count; count as usize]?;
    give_ranks(&mut ranks, count, into);
    Ok(ranks)
}

// The edges that are no back edges.
fn forward_edges(
    alloc: Global,
    edges: &[(u32, u32)],
    back: &[(u32, u32)],
) -> Result<Vec<(u32, u32)>, AllocError>
    ensures { IfOk result (λ forward. forward.items ≡ filter (is_forward back.now) edges.now) }
{
    edges
        .iter()
        .copied()
        .filter(|edge| !is_noted(back, *edge))
        .collect(alloc)
}

// Whether the edge is one of these.
fn is_noted(back: &[(u32, u32)], edge: (u32, u32)) -> bool
    ensures { result ≡ is_noted back.now edge }
{
    back.iter()
        .any(|other| other.0 == edge.0 && other.1 == edge.1)
}

// Gives each node its rank, where none has one. The row of a node has those that come before it.
fn give_ranks(ranks: &mut [u32], count: u32, into: &[Vec<u32>])
    requires clear { ranks.old ≡ replicate count count }
    requires long { length into.now ≡ suc count }
    requires within { (u n : ℕ) → Into (rows_of into.now) u n → u < count }
    requires falling { (number : ℕ → ℕ) × ((u n : ℕ) → Into (rows_of into.now) u n → number n < number u) }
    ensures { IsStage (Into (rows_of into.now)) count count ranks.new }
{
    for rank in 0..count {
        let node = least_ready(ranks, count, into, rank);
        ranks[node as usize] = rank;
    }
}

// The node to which the rank is due.
fn least_ready(ranks: &[u32], count: u32, into: &[Vec<u32>], rank: u32) -> u32
    requires stage { IsStage (Into (rows_of into.now)) count rank ranks.now }
    requires some { rank < count }
    requires long { length into.now ≡ suc count }
    requires within { (u n : ℕ) → Into (rows_of into.now) u n → u < count }
    requires falling { (number : ℕ → ℕ) × ((u n : ℕ) → Into (rows_of into.now) u n → number n < number u) }
    ensures { IsChoice (Into (rows_of into.now)) count rank ranks.now result }
{
    for node in 0..count {
        if ranks[node as usize] == count && is_ready(ranks, into, rank, node) {
            return node;
        }
    }
    unreachable!()
}

// Whether each node of the row has a lower rank.
fn is_ready(ranks: &[u32], into: &[Vec<u32>], rank: u32, node: u32) -> bool
    requires inside { node < length into.now }
    requires within { (u n : ℕ) → Into (rows_of into.now) u n → u < length ranks.now }
    ensures ready { result ≡ true → IsDue (Into (rows_of into.now)) (slice_index ranks.now) rank node }
    ensures waits { result ≡ false → IsDue (Into (rows_of into.now)) (slice_index ranks.now) rank node → ⊥ }
{
    for before in &into[node as usize] {
        if rank <= ranks[*before as usize] {
            return false;
        }
    }
    true
}
