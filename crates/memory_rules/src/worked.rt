//! Stores and loads of a frame of 128 bits, worked out apart from the definitions: the word 7 is stored at
//! one of the offsets 0, 4, 8 and 12.

ghost use Rattle.std.specs.Prelude.{◌≡◌, false, Some, None, [], ◌∷◌, pos};
ghost use Rattle.alf_ops.specs.declared.history.RunFault.TheVariants.{Uninit, Mixed};
ghost use Rattle.progressions.specs.Progressions.{from_to};
ghost use Rattle.strided_rules.specs.Strides.{one_word};
ghost use Rattle.memory_rules.specs.Worked.{one_frame, four_cells, words_alone, pointer_alone, zeros, told, told_after};
ghost use Rattle.memory_rules.specs.Addresses.{cells_of};

/// The address means these four cells.
pub fn an_address_means_its_cells()
    ensures cells { cells_of one_frame (λ function. false)
        ((0, record { size = 32; numbers = from_to (pos 0) (pos 12) (pos 4) }) ∷ []) 32 ≡ four_cells }
    ensures past { cells_of one_frame (λ function. false) ((0, one_word 32 14) ∷ []) 32 ≡ [] }
{}

/// Over zeros a load of 32 bits at 8 gives 0 or 7; over nothing it gives 7 or is uninit, and so is a load of
/// 16 bits there.
pub fn a_weak_store_joins()
    ensures over_zeros { told zeros 8 32
        ≡ (Some (words_alone (record { size = 32; numbers = from_to (pos 0) (pos 7) (pos 7) })), []) }
    ensures over_nothing { told [] 8 32 ≡ (Some (words_alone (one_word 32 7)), Uninit ∷ []) }
    ensures of_bytes { told [] 8 16 ≡ (Some (words_alone (one_word 16 7)), Uninit ∷ []) }
{}

/// The word 258 is read byte by byte, the lowest bits at the lowest offset; a byte past it has no store. A byte of a
/// pointer is mixed.
pub fn a_strong_store_is_read_by_bytes()
    ensures whole { told_after (words_alone (one_word 32 258)) 0 32 ≡ (Some (words_alone (one_word 32 258)), []) }
    ensures lowest { told_after (words_alone (one_word 32 258)) 0 8 ≡ (Some (words_alone (one_word 8 2)), []) }
    ensures next { told_after (words_alone (one_word 32 258)) 1 8 ≡ (Some (words_alone (one_word 8 1)), []) }
    ensures past { told_after (words_alone (one_word 32 258)) 2 32 ≡ (None, Uninit ∷ []) }
    ensures of_pointer { told_after (pointer_alone (one_word 32 4)) 1 8 ≡ (None, Mixed ∷ []) }
{}
