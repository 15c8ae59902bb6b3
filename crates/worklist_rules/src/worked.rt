//! Positions in a loop, worked out apart from the definitions.

ghost use Rattle.std.specs.Prelude.{◌≡◌, [], ◌∷◌};
ghost use Rattle.worklist_rules.specs.Positions.{position_of, moved_position};
ghost use Rattle.worklist_rules.specs.Worked.{one_loop};

/// A position has for each scope, from the outermost, the rank of its header and its iteration, and last the rank
/// of the node.
pub fn positions_go_from_the_outermost_scope()
    ensures within { position_of one_loop (3 ∷ 2 ∷ 3 ∷ 2 ∷ 0 ∷ []) ≡ 0 ∷ 1 ∷ 1 ∷ 2 ∷ 3 ∷ [] }
    ensures behind { position_of one_loop (1 ∷ 2 ∷ 3 ∷ 2 ∷ 0 ∷ []) ≡ 0 ∷ 1 ∷ 2 ∷ [] }
    ensures again { moved_position one_loop 3 (0 ∷ 1 ∷ 1 ∷ 2 ∷ 3 ∷ []) 2 ≡ 0 ∷ 1 ∷ 1 ∷ 3 ∷ 1 ∷ [] }
    ensures goes_on { moved_position one_loop 2 (0 ∷ 1 ∷ 1 ∷ 2 ∷ 1 ∷ []) 3 ≡ 0 ∷ 1 ∷ 1 ∷ 2 ∷ 3 ∷ [] }
{}
