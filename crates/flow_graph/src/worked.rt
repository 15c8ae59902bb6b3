//! Names and edges of a small program, worked out apart from the definitions.

ghost use Rattle.std.specs.Prelude.{◌≡◌, [], ◌∷◌, Some, None};
ghost use Rattle.flow_graph.specs.Names.{node_name};
ghost use Rattle.flow_graph.specs.Nodes.{Leads, entry_node, block_node};
ghost use Rattle.flow_graph.specs.Worked.{one_call};

/// A node is named by the root, then for each call by its block and the called function, and last by the entry or
/// the block.
pub fn nodes_are_named_by_their_calls()
    ensures root { node_name one_call (entry_node [])
        ≡ 34 ∷ 109 ∷ 97 ∷ 105 ∷ 110 ∷ 34 ∷ 58 ∷ 101 ∷ 110 ∷ 116 ∷ 114 ∷ 121 ∷ [] }
    ensures called { node_name one_call (block_node (0 ∷ []) 12)
        ≡ 34 ∷ 109 ∷ 97 ∷ 105 ∷ 110 ∷ 34 ∷ 46 ∷ 48 ∷ 34 ∷ 102 ∷ 34 ∷ 58 ∷ 49 ∷ 50 ∷ [] }
{}

/// An entry leads to block 0, a call to the entry of the called function, a return to the block after the call,
/// and that of the root to the end; a switch leads to its targets and to its default.
pub fn edges_follow_the_endings_of_blocks()
    ensures entry { Leads one_call (entry_node (0 ∷ [])) (Some (block_node (0 ∷ []) 0)) }
    ensures call { Leads one_call (block_node [] 0) (Some (entry_node (0 ∷ []))) }
    ensures back { Leads one_call (block_node (0 ∷ []) 0) (Some (block_node [] 1)) }
    ensures end { Leads one_call (block_node [] 2) None }
    ensures target { Leads one_call (block_node [] 1) (Some (block_node [] 1)) }
    ensures otherwise { Leads one_call (block_node [] 1) (Some (block_node [] 2)) }
{}
