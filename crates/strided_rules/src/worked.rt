//! The rules at values of 8 bits, worked out apart from the definitions.

ghost use Rattle.std.specs.Prelude.{◌≡◌, pos, neg_ℤ, Some, None};
ghost use Rattle.domain_core.specs.declared.relation.Rel.TheVariants.{SLt, ULt};
ghost use Rattle.strided_rules.specs.Strides.{norm, join, one_word};
ghost use Rattle.strided_rules.specs.Members.{assumed, without, only};
ghost use Rattle.strided_rules.specs.Operators.{add, u_mod, signed_pair};
ghost use Rattle.strided_rules.specs.Rules.{lesser};
ghost use Rattle.progressions.specs.Progressions.{from_to};

/// 250 to 255 is -6 to -1, and 120 to 127 joined with -128 to -120 is 120 to 136.
pub fn values_are_normed_and_joined()
    ensures normed { norm 8 (from_to (pos 250) (pos 255) (pos 1)) ≡ from_to (neg_ℤ (pos 6)) (neg_ℤ (pos 1)) (pos 1) }
    ensures joined { join 8 (from_to (pos 120) (pos 127) (pos 1)) (from_to (neg_ℤ (pos 128)) (neg_ℤ (pos 120)) (pos 1))
        ≡ from_to (pos 120) (pos 136) (pos 1) }
{}

/// A sum, a remainder and a lesser number; what relations, a word left out and a word kept leave.
pub fn rules_come_out()
    ensures sum { add (record { size = 8; numbers = from_to (pos 4) (pos 10) (pos 2) }) (one_word 8 250) (one_word 1 0)
        ≡ record { size = 8; numbers = from_to (neg_ℤ (pos 2)) (pos 4) (pos 2) } }
    ensures remainder { u_mod (record { size = 8; numbers = from_to (pos 0) (pos 9) (pos 1) }) (one_word 8 4)
        ≡ record { size = 8; numbers = from_to (pos 0) (pos 3) (pos 1) } }
    ensures lesser { signed_pair 8 lesser (record { size = 8; numbers = from_to (neg_ℤ (pos 3)) (pos 4) (pos 1) })
        (one_word 8 2) ≡ record { size = 8; numbers = from_to (neg_ℤ (pos 3)) (pos 2) (pos 1) } }
    ensures below { assumed SLt (record { size = 8; numbers = from_to (neg_ℤ (pos 5)) (pos 5) (pos 1) }) (one_word 8 5)
        ≡ Some (record { size = 8; numbers = from_to (neg_ℤ (pos 5)) (pos 4) (pos 1) }) }
    ensures below_unsigned { assumed ULt (record { size = 8; numbers = from_to (neg_ℤ (pos 1)) (pos 1) (pos 1) })
        (one_word 8 3) ≡ Some (record { size = 8; numbers = from_to (pos 0) (pos 1) (pos 1) }) }
    ensures left_out { without (record { size = 8; numbers = from_to (pos 0) (pos 9) (pos 3) }) 9
        ≡ Some (record { size = 8; numbers = from_to (pos 0) (pos 6) (pos 3) }) }
    ensures not_there { only (record { size = 8; numbers = from_to (pos 0) (pos 9) (pos 3) }) 4 ≡ None }
{}
