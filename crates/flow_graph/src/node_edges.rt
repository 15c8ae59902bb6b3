//! The edges from a node.

ghost use Rattle.std.specs.Prelude.{◌≡◌, ◌<◌, ◌↔◌, ℕ, IfOk, IsTrue, Some, length, slice_get};
ghost use Rattle.alf_check.specs.CheckedPrograms.{NumberedProgram};
ghost use Rattle.flow_graph.specs.Nodes.{Node, function_at};
ghost use Rattle.flow_graph.specs.Numbering.{IsGraph};
ghost use Rattle.flow_graph.specs.Edges.{AreFirstEdges, HasEdge, IsNodeWith};

use crate::graph::Graph;
use std::alloc::{AllocError, Global};

/// For each node the number of the first edge that leads from it, or 0 where none does.
pub fn first_edges(alloc: Global, graph: &Graph) -> Result<Vec<u32>, AllocError>
    ensures { IfOk result (λ firsts. AreFirstEdges graph.now firsts.items) }
{
    graph.keeps();
    let mut firsts = vec![in alloc; 0; graph.node_count() as usize]?;
    let mut edge = graph.edge_count();
    while edge > 0 {
        edge -= 1;
        let (from, _) = graph.edge(edge);
        firsts[from as usize] = edge;
    }
    Ok(firsts)
}

/// The number of the node with this block, or of the entry, to which an edge leads from a node.
///
/// Takes time by the count of the edges from the node.
pub fn next_node(graph: &Graph, firsts: &[u32], node: u32, block: Option<u32>) -> u32
    requires firsts { AreFirstEdges graph.now firsts.now }
    requires node { node < length graph.now.nodes }
    ensures { (goal : Node) → HasEdge graph.now node goal → goal.block ≡ block
        → slice_get graph.now.nodes result ≡ Some goal }
{
    graph.keeps();
    for edge in firsts[node as usize]..graph.edge_count() {
        let (from, to) = graph.edge(edge);
        if from == node && has_block(graph, to, block) {
            return to;
        }
    }
    0
}

// The number is that of a node with this block, or of an entry.
fn has_block(graph: &Graph, node: u32, block: Option<u32>) -> bool
    ensures { IsTrue result ↔ IsNodeWith graph.now node block }
{
    node < graph.node_count() && graph.node(node).block == block
}

/// The function of the nodes to which edges lead from a node, where they lead to nodes.
pub fn next_func(graph: &Graph, firsts: &[u32], node: u32) -> u32
    requires firsts { AreFirstEdges graph.now firsts.now }
    requires node { node < length graph.now.nodes }
    ensures { (program : NumberedProgram) (goal : Node) → IsGraph program graph.now → HasEdge graph.now node goal
        → result ≡ function_at program goal.path }
{
    let edge = firsts[node as usize];
    if edge < graph.edge_count() {
        func_of(graph, graph.edge(edge).1)
    } else {
        0
    }
}

// The function of a node.
fn func_of(graph: &Graph, node: u32) -> u32
    ensures { (func : ℕ) → slice_get graph.now.funcs node ≡ Some func → result ≡ func }
{
    graph.keeps();
    if node < graph.node_count() {
        graph.node(node).func
    } else {
        0
    }
}
