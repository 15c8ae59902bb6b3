//! Counts of a few numbers, worked out apart from the definitions, and the room that lists of them take.

ghost use Rattle.std.specs.Prelude.{◌*◌, ◌≤◌, ◌∷◌, [], Some, length};
ghost use Rattle.recorder_rules.specs.TallyRules.{is_at};
ghost use Rattle.flow_recorders.specs.Walked.{HasWide};
ghost use Rattle.flow_recorders.specs.SpanLists.{spans_in, room_of, IsSingle};
ghost use Rattle.flow_recorders.specs.declared.ends.Ends.{Ends};

/// Of three numbers the first and the last have the key 1. What is wide is a least count of 256 at one of these.
pub fn wide_counts_are_past_a_byte()
    ensures first { HasWide (Some 1 ∷ Some 2 ∷ Some 1 ∷ []) (λ key. is_at key 1) ((256, 300) ∷ (0, 0) ∷ (3, 3) ∷ []) }
    ensures last { HasWide (Some 1 ∷ Some 2 ∷ Some 1 ∷ []) (λ key. is_at key 1) ((2, 2) ∷ (0, 0) ∷ (256, 256) ∷ []) }
    ensures byte { HasWide (Some 1 ∷ Some 2 ∷ Some 1 ∷ []) (λ key. is_at key 1) ((255, 255) ∷ (0, 0) ∷ (3, 3) ∷ []) → ⊥ }
    ensures greatest { HasWide (Some 1 ∷ Some 2 ∷ Some 1 ∷ []) (λ key. is_at key 1) ((3, 300) ∷ (0, 0) ∷ (3, 3) ∷ [])
        → ⊥ }
    ensures other { HasWide (Some 1 ∷ Some 2 ∷ Some 1 ∷ []) (λ key. is_at key 1) ((0, 0) ∷ (300, 300) ∷ (0, 0) ∷ [])
        → ⊥ }
{}

/// A list of one number for each span takes at most four bytes a span, and any other at most eight.
pub fn lists_have_room()
    ensures single { (ends : Ends) → IsSingle ends → room_of ends ≤ 4 * length (spans_in ends) }
    ensures all { (ends : Ends) → room_of ends ≤ 8 * length (spans_in ends) }
{}
