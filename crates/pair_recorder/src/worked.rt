//! Paths of a few nodes, worked out apart from the definitions.

ghost use Rattle.std.specs.Prelude.{◌≡◌, ◌∷◌, [], ℕ, List};
ghost use Rattle.domain_core.specs.Outlines.{Outlined};
ghost use Rattle.pair_recorder.specs.Paths.{IsSmall, with_scope, scopes_in};
ghost use Rattle.pair_recorder.specs.Forms.{IsPath, IsPathOf};
ghost use Rattle.pair_recorder.specs.declared.pairs.Form.{Form};

/// The scopes of a path stand each once, in the order in which they are met first.
pub fn paths_have_their_scopes()
    ensures three { scopes_in (record { node = 0; scope = 2 } ∷ record { node = 1; scope = 5 }
        ∷ record { node = 2; scope = 2 } ∷ record { node = 3; scope = 0 } ∷ []) ≡ 2 ∷ 5 ∷ 0 ∷ [] }
    ensures added { with_scope (2 ∷ []) 5 ≡ 2 ∷ 5 ∷ [] }
    ensures kept { with_scope (2 ∷ 5 ∷ []) 2 ≡ 2 ∷ 5 ∷ [] }
{}

/// A path of an outline is a path, and the outline's numbers have 16 bits.
pub fn paths_of_outlines_are_paths()
    ensures path { (o : Outlined) (form : Form) → IsPathOf o form → IsPath form }
    ensures small { (o : Outlined) (form : Form) → IsPathOf o form → IsSmall o }
{}
