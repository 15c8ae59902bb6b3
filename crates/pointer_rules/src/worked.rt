//! The rules at some pointers and words, worked out apart from the definitions.

ghost use Rattle.std.specs.Prelude.{◌≡◌, Some, None, [], ◌∷◌};
ghost use Rattle.alf_ops.specs.declared.operator.Op.TheVariants.{Sub, Eq, Neq, ULt};
ghost use Rattle.alf_ops.specs.declared.history.RunFault.TheVariants.{Kind, Pointers};
ghost use Rattle.domain_core.specs.FaultSets.{no_faults, with_fault};
ghost use Rattle.strided_rules.specs.Strides.{one_word};
ghost use Rattle.pointer_rules.specs.Choices.{applied};

/// Pointers to the frames 1 and 2 are unequal, and not ordered. A pointer into one of two frames, less the
/// word 4, is a pointer 4 bytes lower into each. Where a value is a word or a pointer, it is compared with
/// a pointer in one choice, and in the other it is the fault kind.
pub fn pointers_come_out()
    ensures unequal { applied Eq (32 ∷ [])
        (record { words = None; places = (1, one_word 32 4) ∷ [] }
        ∷ record { words = None; places = (2, one_word 32 4) ∷ [] } ∷ [])
        ≡ record { value = Some (record { words = Some (one_word 1 0); places = [] }); faults = no_faults } }
    ensures unordered { applied ULt (32 ∷ [])
        (record { words = None; places = (1, one_word 32 4) ∷ [] }
        ∷ record { words = None; places = (2, one_word 32 4) ∷ [] } ∷ [])
        ≡ record { value = None; faults = with_fault no_faults Pointers } }
    ensures moved { applied Sub (32 ∷ [])
        (record { words = None; places = (1, one_word 32 4) ∷ (2, one_word 32 12) ∷ [] }
        ∷ record { words = Some (one_word 32 4); places = [] } ∷ record { words = Some (one_word 1 1); places = [] }
        ∷ [])
        ≡ record {
          value = Some (record { words = None; places = (1, one_word 32 0) ∷ (2, one_word 32 8) ∷ [] });
          faults = no_faults;
        } }
    ensures mixed { applied Neq (32 ∷ [])
        (record { words = Some (one_word 32 0); places = (1, one_word 32 4) ∷ [] }
        ∷ record { words = None; places = (1, one_word 32 4) ∷ [] } ∷ [])
        ≡ record {
          value = Some (record { words = Some (one_word 1 0); places = [] });
          faults = with_fault no_faults Kind;
        } }
{}
