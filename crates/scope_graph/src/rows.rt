//! The rows of an outline.

ghost use Rattle.std.specs.Prelude.{◌≡◌, ◌<◌, ◌^◌, ◌-◌, ℕ, None, Some, length, IfOk};
ghost use Rattle.scope_graph.specs.Inner.{IsGrid, IsHeld, IsInnermost, lists_of};
ghost use Rattle.scope_graph.specs.Assembled.{IsParented, IsOwned};

use crate::inner::innermost;
use domain_core::{NodeRow, ScopeRow};
use flow_graph::Graph;
use std::alloc::{AllocError, Global};

/// Each scope with its parent.
pub fn with_parents(
    alloc: Global,
    rows: &[ScopeRow],
    holds: &[Vec<bool>],
    ranks: &[u32],
) -> Result<Vec<ScopeRow>, AllocError>
    requires grid { IsGrid rows.now (lists_of holds.now) (length ranks.now) }
    requires few { length rows.now < 2 ^ 32 - 1 }
    ensures { IfOk result
        (λ scopes. IsParented (length rows.now) rows.now (lists_of holds.now) ranks.now scopes.items) }
{
    let mut scopes = Vec::new(alloc);
    for s in 0..rows.len() {
        let row = rows[s];
        let parent = innermost(rows, holds, ranks, Some(s), row.header as usize);
        let parent = number_of(parent);
        scopes.push(ScopeRow {
            parent,
            header: row.header,
            kind: row.kind,
        })?;
    }
    Ok(scopes)
}

// The place of a scope as its number.
fn number_of(place: Option<usize>) -> Option<u32>
    requires { (s : ℕ) → place ≡ Some s → s < 2 ^ 32 }
    ensures { result ≡ place }
{
    match place {
        None => None,
        Some(s) => Some(s as u32),
    }
}

/// Each node with its scope, its rank and its name, and cost 0.
pub fn node_rows(
    alloc: Global,
    graph: &Graph,
    rows: &[ScopeRow],
    holds: &[Vec<bool>],
    ranks: &[u32],
) -> Result<Vec<NodeRow>, AllocError>
    requires grid { IsGrid rows.now (lists_of holds.now) (length ranks.now) }
    requires few { length rows.now < 2 ^ 32 - 1 }
    requires long { length ranks.now ≡ length graph.now.nodes }
    requires named { length graph.now.names ≡ length graph.now.nodes }
    requires held { (n : ℕ) → n < length ranks.now → (s : ℕ) × (s < length rows.now) × IsHeld (lists_of holds.now) s n }
    ensures { IfOk result
        (λ nodes. IsOwned (length graph.now.nodes) graph.now.names rows.now (lists_of holds.now) ranks.now
        nodes.items) }
{
    let mut nodes = Vec::new(alloc);
    for n in 0..graph.node_count() {
        let scope = own_scope(rows, holds, ranks, n);
        let name = graph.name(alloc, n)?;
        nodes.push(NodeRow {
            scope,
            rank: ranks[n as usize],
            cost: 0,
            name,
        })?;
    }
    Ok(nodes)
}

// The innermost scope of a node.
fn own_scope(rows: &[ScopeRow], holds: &[Vec<bool>], ranks: &[u32], n: u32) -> u32
    requires grid { IsGrid rows.now (lists_of holds.now) (length ranks.now) }
    requires few { length rows.now < 2 ^ 32 - 1 }
    requires inside { n < length ranks.now }
    requires held { (s : ℕ) × (s < length rows.now) × IsHeld (lists_of holds.now) s n }
    ensures { IsInnermost (length rows.now) rows.now (lists_of holds.now) ranks.now None n (Some result) }
{
    match innermost(rows, holds, ranks, None, n as usize) {
        None => unreachable!(),
        Some(scope) => scope as u32,
    }
}
