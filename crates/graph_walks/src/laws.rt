//! What ranks promise, as a clause of a function that does nothing.

ghost use Rattle.std.specs.Prelude.{ℕ, List, [], ◌∷◌};
ghost use Rattle.graph_walks.specs.Tables.{HasEdge};
ghost use Rattle.graph_walks.specs.Walks.{Walk};
ghost use Rattle.graph_walks.specs.Calls.{RanksRuleOutCycles};

/// Where each call leads to a lower rank, no function is on a cycle.
pub fn ranked_calls_have_no_cycle()
    ensures { RanksRuleOutCycles }
{}

/// A walk has both its ends and what lies between them in their order, and an edge stands in the row of the node
/// that it leaves.
pub fn walks_go_along_edges()
    ensures stays { (table : List (List ℕ)) (a : ℕ) → Walk (HasEdge table) a a (a ∷ []) }
    ensures two { (table : List (List ℕ)) (a b d : ℕ) → HasEdge table a b → HasEdge table b d
        → Walk (HasEdge table) a d (a ∷ b ∷ d ∷ []) }
    ensures edge { HasEdge ((2 ∷ 1 ∷ []) ∷ [] ∷ []) 0 1 }
    ensures none { HasEdge ((1 ∷ []) ∷ [] ∷ []) 1 0 → ⊥ }
{}
