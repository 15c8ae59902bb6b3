//! Steps of small programs, worked out apart from the definitions: a switch on what an input holds.

ghost use Rattle.std.specs.Prelude.{◌≡◌, Some, [], ◌∷◌, pos};
ghost use Rattle.alf_ops.specs.declared.operator.Op.TheVariants.{SLt, ZExt};
ghost use Rattle.alf_ops.specs.declared.history.RunFault.TheVariants.{Kind, Uninit};
ghost use Rattle.alf_program.specs.Tree.{Address, Apply, Empty, With};
ghost use Rattle.flow_graph.specs.Nodes.{entry_node, block_node};
ghost use Rattle.domain_core.specs.FaultSets.{no_faults, with_fault};
ghost use Rattle.progressions.specs.Progressions.{from_to};
ghost use Rattle.memory_rules.specs.Worked.{words_alone};
ghost use Rattle.transfer_rules.specs.Worked.{one_block, content, number, both_of, ranged, stepped, cut_to, called};
ghost use Rattle.transfer_rules.specs.Worked.{returned};

/// What a place holds is cut by what a comparison gives, on either side of it. A comparison that is decided
/// has one
/// successor.
pub fn a_comparison_cuts_its_place()
    ensures first { cut_to (both_of SLt content (number 8 5)) (pos 0) (pos 10) 1
        ≡ Some (words_alone (record { size = 8; numbers = from_to (pos 0) (pos 4) (pos 1) })) }
    ensures first_not { cut_to (both_of SLt content (number 8 5)) (pos 0) (pos 10) 0
        ≡ Some (words_alone (record { size = 8; numbers = from_to (pos 5) (pos 10) (pos 1) })) }
    ensures second { cut_to (both_of SLt (number 8 5) content) (pos 0) (pos 10) 1
        ≡ Some (words_alone (record { size = 8; numbers = from_to (pos 6) (pos 10) (pos 1) })) }
    ensures second_not { cut_to (both_of SLt (number 8 5) content) (pos 0) (pos 10) 0
        ≡ Some (words_alone (record { size = 8; numbers = from_to (pos 0) (pos 5) (pos 1) })) }
    ensures decided { stepped (one_block (both_of SLt content (number 8 5)) ((1, 1) ∷ []) 2) (ranged (pos 7) (pos 7))
        ≡ (
          (Some (block_node [] 2), Some (words_alone (record { size = 8; numbers = from_to (pos 7) (pos 7) (pos 1) })))
              ∷ [],
          no_faults,
        ) }
{}

/// A switch on a place pins it to each target's word, and the default keeps no target's word. A switch on a
/// pointer is the fault kind, and one on a frame without a store is uninitialised.
pub fn a_switch_takes_words_alone()
    ensures targets { stepped (one_block content ((0, 1) ∷ (2, 1) ∷ []) 2) (ranged (pos 0) (pos 2))
        ≡ (
          (Some (block_node [] 1), Some (words_alone (record { size = 8; numbers = from_to (pos 0) (pos 0) (pos 1) })))
              ∷ (
                Some (block_node [] 1),
                Some (words_alone (record { size = 8; numbers = from_to (pos 2) (pos 2) (pos 1) })),
              )
              ∷ (
                Some (block_node [] 2),
                Some (words_alone (record { size = 8; numbers = from_to (pos 1) (pos 1) (pos 1) })),
              ) ∷ [],
          no_faults,
        ) }
    ensures extended { stepped (one_block (Apply ZExt (8 ∷ 32 ∷ []) (With content Empty)) ((0, 1) ∷ []) 2)
        (ranged (pos 0) (pos 2))
        ≡ (
          (Some (block_node [] 1), Some (words_alone (record { size = 8; numbers = from_to (pos 0) (pos 0) (pos 1) })))
              ∷ (
                Some (block_node [] 2),
                Some (words_alone (record { size = 8; numbers = from_to (pos 1) (pos 2) (pos 1) })),
              ) ∷ [],
          no_faults,
        ) }
    ensures pointer { stepped (one_block (Address 0 0) ((0, 1) ∷ []) 2) (ranged (pos 0) (pos 2))
        ≡ ([], with_fault no_faults Kind) }
    ensures uninitialised { stepped (one_block content ((0, 1) ∷ []) 2) [] ≡ ([], with_fault no_faults Uninit) }
{}

/// A call leads to the entry of the function. Its return leads to the block after the call, with what is
/// returned in the caller's frame.
pub fn a_call_enters_and_returns()
    ensures called { called ≡ Some (entry_node (0 ∷ [])) ∷ [] }
    ensures returned { returned
        ≡ (
          (Some (block_node [] 1), Some (words_alone (record { size = 8; numbers = from_to (pos 4) (pos 4) (pos 1) })))
              ∷ [],
          no_faults,
        ) }
{}
