//! What nodes cost.

ghost use Rattle.std.specs.Prelude.{◌≡◌, ◌<◌, length, slice_get, Some};
ghost use Rattle.alf_check.specs.CheckedPrograms.{NumberedProgram};
ghost use Rattle.flow_graph.specs.Nodes.{Node};
ghost use Rattle.flow_graph.specs.Numbering.{IsGraph};
ghost use Rattle.program_machines.specs.NodeCosts.{node_cost, HasCosts};
ghost use Rattle.program_analysis.specs.Pricing.{IsPricedAs};

use cost_table::Costs;
use domain_core::Outline;
use flow_graph::Graph;

/// Gives each node of the outline what it costs: a block what the table says, and an entry nothing.
pub fn set_costs(graph: &Graph, costs: &Costs, outline: &mut Outline)
    requires { length outline.old.nodes ≡ length graph.now.nodes }
    ensures priced { (program : NumberedProgram) → IsGraph program graph.now
        → HasCosts program graph.now costs.now outline.new }
    ensures kept { IsPricedAs outline.old outline.new }
{
    for n in 0..graph.node_count() {
        outline.set_cost(n, cost_of(graph, costs, n));
    }
}

// What a node costs.
fn cost_of(graph: &Graph, costs: &Costs, n: u32) -> u32
    requires { n < length graph.now.nodes }
    ensures { (program : NumberedProgram) (node : Node) → IsGraph program graph.now
        → slice_get graph.now.nodes n ≡ Some node → result ≡ node_cost program costs.now node }
{
    let node = graph.node(n);
    match node.block {
        None => 0,
        Some(block) => costs.of(node.func, block),
    }
}
