//! What visits of nodes cost.

ghost use Rattle.std.specs.Prelude.{◌≡◌, ◌<◌, length, map, slice_index};
ghost use Rattle.domain_core.specs.Outlines.{NodeCostsFit};

use crate::NodeRow;

/// What a visit of a node costs.
fn cost_at(nodes: &[NodeRow], node: usize) -> u32
    requires { node < length nodes.now }
    ensures { result ≡ slice_index (map (λ row. row.cost) nodes.now) node }
{
    nodes[node].cost
}

/// What a visit of each node costs fits 32 bits, as each number that is read tells.
pub fn node_costs_fit(nodes: &[NodeRow])
    ensures { NodeCostsFit nodes.now }
{
    for node in 0..nodes.len() {
        let _cost = cost_at(nodes, node);
    }
}
