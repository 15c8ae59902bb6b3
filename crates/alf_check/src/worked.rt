//! A program, its blocks and its numbers, worked out apart from the definitions.

ghost use Rattle.std.specs.Prelude.{◌≡◌, ◌≤◌, ◌⊎◌, [], ◌∷◌, codes, Some, None, pos};
ghost use Rattle.alf_program.specs.Tree as text;
ghost use Rattle.alf_program.specs.Tree.{Number, Address, Load, Label, Do};
ghost use Rattle.alf_check.specs.Blocks.{blocks_of};
ghost use Rattle.alf_check.specs.CheckedPrograms.{Store, Fall, Jump, Switch, Call, Return};
ghost use Rattle.alf_check.specs.Checking.{calls_in};
ghost use Rattle.alf_check.specs.Inputs.{ShareNoByte};
ghost use Rattle.alf_check.specs.Numbered.{numbered};
ghost use Rattle.alf_check.specs.Shapes.{shapes_of};
ghost use Rattle.alf_check.specs.Worked.{three_blocks, two_functions, jump, five};

/// A block begins after each jump, switch, call and return, and at a label that stands behind a statement.
pub fn items_are_cut_into_blocks()
    ensures { blocks_of three_blocks
        ≡ (Label (codes "a") ∷ Label (codes "b") ∷ Do text.Null ∷ []) ∷ (Label (codes "c") ∷ jump (codes "a") ∷ [])
        ∷ (Do text.Null ∷ Do (text.Return None) ∷ []) ∷ [] }
{}

/// Global frames come first, then function by function arguments and declarations; labels are blocks, and each
/// function has the calls of its items.
pub fn names_have_their_numbers()
    ensures frames { (numbered two_functions (codes "m")).frames
        ≡ record { owner = None; name = codes "g"; bits = 8 } ∷ record { owner = None; name = codes "h"; bits = 8 }
        ∷ record { owner = Some 0; name = codes "a"; bits = 8 } ∷ record { owner = Some 0; name = codes "b"; bits = 8 }
        ∷ record { owner = Some 1; name = codes "x"; bits = 8 } ∷ record { owner = Some 1; name = codes "y"; bits = 8 }
        ∷ [] }
    ensures callee { (numbered two_functions (codes "m")).funcs
        ≡ record {
          name = codes "f";
          args = 2 ∷ [];
          frames = 2 ∷ 3 ∷ [];
          inits = [];
          blocks = record {
            statements = Store (Address 3 0) (Load 8 (Address 2 0)) ∷ [];
            ending = Return (Some (Load 8 (Address 3 0)));
          } ∷ [];
        }
        ∷ record {
          name = codes "m";
          args = [];
          frames = 4 ∷ 5 ∷ [];
          inits = record { frame = 4; offset = 0; num = five 8 } ∷ [];
          blocks = record { statements = []; ending = Call 0 (Number (five 8) ∷ []) (Some (5, 0)) 1 }
              ∷ record { statements = []; ending = Switch (Load 8 (Address 0 0)) ((5, 2) ∷ []) 0 }
              ∷ record { statements = []; ending = Return None } ∷ [];
        } ∷ [] }
    ensures held { (numbered two_functions (codes "m")).inits ≡ record { frame = 1; offset = 0; num = five 8 } ∷ [] }
    ensures exported { (numbered two_functions (codes "m")).exports ≡ 1 ∷ [] }
    ensures root { (numbered two_functions (codes "m")).root ≡ 1 }
    ensures calls { calls_in two_functions ≡ [] ∷ (0 ∷ []) ∷ [] }
    ensures shapes { shapes_of (record { owner = Some 1; name = codes "x"; bits = 16 } ∷ [])
        ≡ record { owner = Some 1; bits = 16 } ∷ [] }
{}
