//! The scopes of a graph.

ghost use Rattle.std.specs.Prelude.{◌≡◌, ◌<◌, ◌∷◌, ◌-◌, [], ℕ, true, false, length, IfOk, Contains};
ghost use Rattle.graph_walks.specs.Tables.{HasEdge, rows_of};
ghost use Rattle.scope_graph.specs.Placing.{plan_of};
ghost use Rattle.scope_graph.specs.Members.{MarksExactly};
ghost use Rattle.scope_graph.specs.Inner.{lists_of};
ghost use Rattle.scope_graph.specs.Found.{IsTarget, IsKindAt, IsMember, IsFound};

use crate::body::loop_body;
use crate::members::{call_members, loop_members};
use domain_core::{ScopeKind, ScopeRow};
use flow_graph::Graph;
use std::alloc::{AllocError, Global};

/// The scopes in the order of their headers, and for each the nodes that it holds.
#[derive(Drop)]
pub struct Found {
    pub rows: Vec<ScopeRow>,
    pub holds: Vec<Vec<bool>>,
}

/// Finds the scopes. The parents are left out.
pub fn find_scopes(
    alloc: Global,
    table: &[Vec<u32>],
    back: &[(u32, u32)],
    graph: &Graph,
) -> Result<Found, AllocError>
    requires closed { (u v : ℕ) → HasEdge (rows_of table.now) u v → v < length graph.now.nodes }
    requires wide { length graph.now.nodes < length table.now }
    requires sources { (u h : ℕ) → Contains back.now (u, h) → u < length graph.now.nodes }
    ensures { IfOk result
        (λ found. IsFound (rows_of table.now) back.now (plan_of graph.now) (length graph.now.nodes) found.rows.items
        (lists_of found.holds.items)) }
{
    let mut rows = Vec::new(alloc);
    let mut holds = Vec::new(alloc);
    for node in 0..graph.node_count() {
        match kind_at(graph, back, node) {
            None => {}
            Some(kind) => {
                let marks = members_of(alloc, table, back, graph, kind, node)?;
                rows.push(ScopeRow {
                    parent: None,
                    header: node,
                    kind,
                })?;
                holds.push(marks)?;
            }
        }
    }
    Ok(Found { rows, holds })
}

// The nodes of the scope of this kind and header.
fn members_of(
    alloc: Global,
    table: &[Vec<u32>],
    back: &[(u32, u32)],
    graph: &Graph,
    kind: ScopeKind,
    header: u32,
) -> Result<Vec<bool>, AllocError>
    requires closed { (u v : ℕ) → HasEdge (rows_of table.now) u v → v < length graph.now.nodes }
    requires wide { length graph.now.nodes < length table.now }
    requires sources { (u h : ℕ) → Contains back.now (u, h) → u < length graph.now.nodes }
    requires inside { header < length graph.now.nodes }
    ensures { IfOk result
        (λ marks. MarksExactly (length graph.now.nodes)
        (IsMember (rows_of table.now) back.now (plan_of graph.now) kind header) marks.items) }
{
    match kind {
        ScopeKind::Call => call_members(alloc, graph, header),
        ScopeKind::Loop => {
            let body = loop_body(alloc, table, back, header)?;
            loop_members(alloc, graph, &body)
        }
    }
}

// The kind of the scope whose header the node is, if it is one.
fn kind_at(graph: &Graph, back: &[(u32, u32)], node: u32) -> Option<ScopeKind>
    requires { node < length graph.now.nodes }
    ensures { IsKindAt (plan_of graph.now) back.now node result }
{
    if graph.node(node).block.is_none() {
        return Some(ScopeKind::Call);
    }
    if is_target(back, node) {
        return Some(ScopeKind::Loop);
    }
    None
}

// Whether one of the edges leads to the node.
fn is_target(back: &[(u32, u32)], node: u32) -> bool
    ensures yes { result ≡ true → IsTarget back.now node }
    ensures no { result ≡ false → IsTarget back.now node → ⊥ }
{
    for edge in back {
        if edge.1 == node {
            return true;
        }
    }
    false
}
