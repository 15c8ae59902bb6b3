//! Values and frames of a unit, worked out apart from the definitions.

ghost use Rattle.std.specs.Prelude.{◌≡◌, ◌+◌, [], ◌∷◌, codes, Some, None};
ghost use Rattle.alf_ops.specs.declared.history.Value.TheVariants.{Int, Ptr};
ghost use Rattle.lowering_values.specs.Embedding.{embedded_value};
ghost use Rattle.lowering_values.specs.Frames.{row_number};

/// A pointer to an object is one to its frame, at the same offset; the frame is the first of the object's owner
/// and name.
pub fn pointers_go_with_their_objects()
    ensures word { embedded_value (λ o. o + 3) (Int 32 1) ≡ Int 32 1 }
    ensures pointer { embedded_value (λ o. o + 3) (Ptr 1 4) ≡ Ptr 4 4 }
    ensures owner { row_number (Some 1) (codes "x")
        (record { owner = None; name = codes "x"; bits = 8 } ∷ record { owner = Some 1; name = codes "y"; bits = 8 }
        ∷ record { owner = Some 1; name = codes "x"; bits = 8 } ∷ []) ≡ 2 }
    ensures none { row_number None (codes "z") (record { owner = None; name = codes "x"; bits = 8 } ∷ []) ≡ 1 }
{}
