//! Parts of programs, worked out apart from the definitions.

ghost use Rattle.std.specs.Prelude.{◌≡◌, [], ◌∷◌, codes, None, true, false};
ghost use Rattle.alf_ops.specs.declared.operator.Op.TheVariants.{Neg, Add, Select, If};
ghost use Rattle.alf_program.specs.Tree.{Address, Load, Apply, Empty, With, Null, Jump, Call, Return, Label, Do};
ghost use Rattle.alf_program.specs.Writable.{operand_count, depth_of, ends_well, frame_bytes};

/// The last item of a function is a jump, a switch or a return, whatever stands before it.
pub fn functions_end_by_leaving_their_last_block()
    ensures none { ends_well [] ≡ false }
    ensures returned { ends_well (Do Null ∷ Do (Return None) ∷ []) ≡ true }
    ensures jump { ends_well (Do (Jump (codes "l")) ∷ []) ≡ true }
    ensures call { ends_well (Do (Return None) ∷ Do (Call (codes "f") [] None) ∷ []) ≡ false }
    ensures label { ends_well (Do (Return None) ∷ Label (codes "l") ∷ []) ≡ false }
{}

/// A sum takes its carry too, and a selection the word alone.
pub fn operators_have_their_operands()
    ensures negative { operand_count Neg ≡ 1 }
    ensures sum { operand_count Add ≡ 3 }
    ensures selection { operand_count Select ≡ 1 }
    ensures choice { operand_count If ≡ 3 }
    ensures deep { depth_of (Apply Neg (8 ∷ []) (With (Load 8 (Address (codes "x") 0)) Empty)) ≡ 3 }
    ensures bytes { frame_bytes (record { name = codes "x"; bits = 24 }) ≡ 3 }
{}
