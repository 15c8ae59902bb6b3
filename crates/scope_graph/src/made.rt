//! Outlines of graphs.

ghost use Rattle.std.specs.Prelude.{◌≡◌, ◌<◌, ◌-◌, ℕ, [], IfOk, IfErr};
ghost use Rattle.domain_core.specs.Reducible.{IsEdge, IsReducible, IsFalling};
ghost use Rattle.domain_core.specs.Outlines.{shape_of};
ghost use Rattle.domain_core.specs.OutlineOf.{IsOutlineOf};
ghost use Rattle.domain_core.specs.Scopes.{IsPlan};
ghost use Rattle.flow_graph.specs.Graphs.{HasProgram};
ghost use Rattle.scope_graph.specs.Descending.{IsBackList};
ghost use Rattle.scope_graph.specs.Reducing.{IsFaultOf};
ghost use Rattle.scope_graph.specs.Placing.{plan_of};
ghost use Rattle.scope_graph.specs.Assembled.{IsFresh};

use crate::found::find_scopes;
use crate::ranks::ranks_of;
use crate::reduce::{OutlineFault, back_edges};
use crate::rows::{node_rows, with_parents};
use crate::table::predecessors;
use domain_core::Outline;
use flow_graph::{Graph, graphs_are_expansions};
use std::alloc::{AllocError, Global};

/// The outline of a graph, with every cost 0 and without notes, where the graph is reducible; else
/// walks that show that it is not.
pub fn outline(alloc: Global, graph: &Graph) -> Result<Outline, OutlineFault>
    ensures reducible { IfOk result (λ o. IsReducible (IsEdge graph.now.edges)) }
    ensures outline { IfOk result (λ o. IsOutlineOf (plan_of graph.now) (shape_of o)) }
    ensures fresh { IfOk result (λ o. IsFresh graph.now.names o) }
    ensures crossing { IfErr result (λ fault. IsFaultOf (IsEdge graph.now.edges) fault) }
{
    graph.keeps();
    graphs_are_expansions();
    let edges = edges_of(alloc, graph)?;
    let back = back_edges(alloc, graph.node_count(), &edges)?;
    Ok(assembled(alloc, graph, edges, &back)?)
}

// The edges of a graph.
fn edges_of(alloc: Global, graph: &Graph) -> Result<Vec<(u32, u32)>, AllocError>
    ensures { IfOk result (λ edges. edges.items ≡ graph.now.edges) }
{
    let mut edges = Vec::new(alloc);
    for e in 0..graph.edge_count() {
        edges.push(graph.edge(e))?;
    }
    Ok(edges)
}

// The outline of a reducible graph.
fn assembled(
    alloc: Global,
    graph: &Graph,
    edges: Vec<(u32, u32)>,
    back: &[(u32, u32)],
) -> Result<Outline, AllocError>
    requires kept { HasProgram graph.now }
    requires plan { IsPlan (plan_of graph.now) }
    requires edges { edges.items ≡ graph.now.edges }
    requires noted { IsBackList (IsEdge graph.now.edges) back.now }
    requires falling { (number : ℕ → ℕ) × IsFalling (IsEdge graph.now.edges) number }
    ensures outline { IfOk result (λ o. IsOutlineOf (plan_of graph.now) (shape_of o)) }
    ensures fresh { IfOk result (λ o. IsFresh graph.now.names o) }
{
    let count = graph.node_count();
    let ranks = ranks_of(alloc, count, &edges, back)?;
    let into = predecessors(alloc, count, &edges)?;
    let found = find_scopes(alloc, &into, back, graph)?;
    let nodes = node_rows(alloc, graph, &found.rows, &found.holds, &ranks)?;
    let scopes = with_parents(alloc, &found.rows, &found.holds, &ranks)?;
    Ok(Outline::new(alloc, edges, nodes, scopes))
}
