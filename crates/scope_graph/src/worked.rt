//! The places of a small graph, worked out apart from the definitions.

ghost use Rattle.std.specs.Prelude.{◌≡◌, [], ◌∷◌, Some, None};
ghost use Rattle.flow_graph.specs.Nodes.{entry_node, block_node};
ghost use Rattle.scope_graph.specs.Placing.{plan_of};

/// A node stands at its call path and at its block, or at the entry.
pub fn nodes_stand_at_their_paths_and_blocks()
    ensures { plan_of
        (record {
          nodes = entry_node [] ∷ block_node (2 ∷ []) 1 ∷ [];
          funcs = 0 ∷ 0 ∷ [];
          names = [] ∷ [] ∷ [];
          edges = (0, 1) ∷ [];
        })
        ≡ record {
          edges = (0, 1) ∷ [];
          places = record { path = []; block = None } ∷ record { path = 2 ∷ []; block = Some 1 } ∷ [];
        } }
{}
