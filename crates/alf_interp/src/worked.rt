//! Traces, worked out apart from the definitions.

ghost use Rattle.std.specs.Prelude.{◌≡◌, [], ◌∷◌, Some, None};
ghost use Rattle.flow_graph.specs.Nodes.{entry_node, block_node};
ghost use Rattle.alf_interp.specs.Traces.{AreNumbersOf, last_of, places_of, cost_of};

/// A trace has the numbers of the nodes of a run in their order; each place of a node counts and costs.
pub fn traces_are_counted_and_added_up()
    ensures last { last_of (0 ∷ 2 ∷ 1 ∷ []) ≡ Some 1 }
    ensures none { last_of [] ≡ None }
    ensures places { places_of (0 ∷ 2 ∷ 0 ∷ []) 0 ≡ 2 }
    ensures cost { cost_of (3 ∷ 5 ∷ 7 ∷ []) (0 ∷ 2 ∷ 0 ∷ []) ≡ 13 }
    ensures numbers { AreNumbersOf (entry_node [] ∷ block_node [] 0 ∷ []) (1 ∷ 0 ∷ [])
        (block_node [] 0 ∷ entry_node [] ∷ []) }
{}
