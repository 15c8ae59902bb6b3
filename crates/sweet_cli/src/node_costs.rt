//! What the nodes of a graph cost.

ghost use Rattle.std.specs.Prelude.{◌≡◌, ◌<◌, map, IfOk, slice_get, Some, length};
ghost use Rattle.alf_check.specs.CheckedPrograms.{NumberedProgram};
ghost use Rattle.flow_graph.specs.Nodes.{Node};
ghost use Rattle.flow_graph.specs.Numbering.{IsGraph};
ghost use Rattle.program_machines.specs.NodeCosts.{node_cost};

use cost_table::Costs;
use flow_graph::Graph;
use std::alloc::{AllocError, Global};

/// The cost of each node, by their numbers.
pub fn node_costs(alloc: Global, graph: &Graph, costs: &Costs) -> Result<Vec<u32>, AllocError>
    ensures { IfOk result
        (λ all. (program : NumberedProgram) → IsGraph program graph.now
        → all.items ≡ map (node_cost program costs.now) graph.now.nodes) }
{
    let mut all = Vec::new(alloc);
    for n in 0..graph.node_count() {
        all.push(node_cost(graph, costs, n))?;
    }
    Ok(all)
}

// The cost of a node: an entry costs nothing.
fn node_cost(graph: &Graph, costs: &Costs, n: u32) -> u32
    requires { n < length graph.now.nodes }
    ensures { (program : NumberedProgram) (node : Node) → IsGraph program graph.now
        → slice_get graph.now.nodes n ≡ Some node → result ≡ node_cost program costs.now node }
{
    let node = graph.node(n);
    match node.block {
        None => 0,
        Some(block) => costs.of(node.func, block),
    }
}
