//! Costs of nodes, worked out apart from the definitions.

ghost use Rattle.std.specs.Prelude.{◌≡◌, [], ◌∷◌};
ghost use Rattle.cost_table.specs.CostTables.{one_each};
ghost use Rattle.flow_graph.specs.Nodes.{entry_node, block_node};
ghost use Rattle.flow_graph.specs.Worked.{one_call};
ghost use Rattle.program_machines.specs.NodeCosts.{node_cost};

/// An entry costs nothing, and a block what it costs in the function that its call path leads to.
pub fn nodes_cost_what_their_blocks_cost()
    ensures entry { node_cost one_call one_each (entry_node (0 ∷ [])) ≡ 0 }
    ensures block { node_cost one_call (record { rows = (5 ∷ []) ∷ (6 ∷ 7 ∷ 8 ∷ []) ∷ []; others = 1 })
        (block_node [] 1) ≡ 7 }
    ensures called { node_cost one_call (record { rows = (5 ∷ []) ∷ (6 ∷ 7 ∷ 8 ∷ []) ∷ []; others = 1 })
        (block_node (0 ∷ []) 0) ≡ 5 }
{}
