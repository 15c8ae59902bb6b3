//! Lines of refusals, worked out apart from the definitions.

ghost use Rattle.std.specs.Prelude.{◌≡◌, ◌++◌, [], ◌∷◌, codes, Some, None};
ghost use Rattle.alf_check.specs.declared.fault.CheckFault.TheVariants as checks;
ghost use Rattle.alf_text.specs.Language.{Syntax, Number, OutOfProfile, Limit};
ghost use Rattle.c_rules.specs.Programs.{UnknownName, DuplicateName, MistypedAt, Recursion, NoRoot};
ghost use Rattle.c_text.specs.Language.{SyntaxAt, NumberAt, OutsideAt, LimitOf};
ghost use Rattle.flow_base.specs.declared.place.Which.TheVariants.{Depth, FrameBytes, Parens};
ghost use Rattle.program_files.specs.CheckLines.{check_line, names_line};
ghost use Rattle.program_files.specs.FaultLines.{fault_line};
ghost use Rattle.program_files.specs.RefusalLines.{refusal_line};
ghost use Rattle.program_files.specs.UnitLines.{unit_line};

/// A text that departs from its grammar is refused with its place; a limit with what comes to how much.
pub fn texts_are_refused_in_one_line()
    ensures syntax { fault_line (Syntax (record { offset = 9; line = 2; column = 13 }))
        ≡ codes "fault 10 syntax 2 13" ++ (10 ∷ []) }
    ensures number { fault_line (Number (record { offset = 9; line = 2; column = 13 }))
        ≡ codes "fault 11 number 2 13" ++ (10 ∷ []) }
    ensures profile { fault_line (OutOfProfile (record { offset = 9; line = 2; column = 13 }) (codes "elf"))
        ≡ codes "fault 12 profile 2 13 " ++ (34 ∷ (codes "elf" ++ (34 ∷ 10 ∷ []))) }
    ensures limit { fault_line (Limit FrameBytes 65537) ≡ codes "fault 13 limit frame-bytes 65537" ++ (10 ∷ []) }
    ensures syntax_of_c { unit_line (SyntaxAt (record { offset = 9; line = 2; column = 13 }))
        ≡ codes "fault 90 syntax 2 13" ++ (10 ∷ []) }
    ensures number_of_c { unit_line (NumberAt (record { offset = 9; line = 2; column = 13 }))
        ≡ codes "fault 91 number 2 13" ++ (10 ∷ []) }
    ensures profile_of_c { unit_line (OutsideAt (record { offset = 9; line = 2; column = 13 }) (codes "goto"))
        ≡ codes "fault 92 profile 2 13 " ++ (34 ∷ (codes "goto" ++ (34 ∷ 10 ∷ []))) }
    ensures limit_of_c { unit_line (LimitOf Parens 65) ≡ codes "fault 93 limit parens 65" ++ (10 ∷ []) }
{}

/// A program that does not pass the checks is refused with the names that are wrong, or with a function and its item.
pub fn checks_refuse_in_one_line()
    ensures unknown { check_line (checks.UnknownName (codes "x"))
        ≡ Some (codes "fault 20 unknown " ++ (34 ∷ 120 ∷ 34 ∷ 10 ∷ [])) }
    ensures duplicate { check_line (checks.DuplicateName (codes "x"))
        ≡ Some (codes "fault 21 duplicate " ++ (34 ∷ 120 ∷ 34 ∷ 10 ∷ [])) }
    ensures size { check_line (checks.Size (codes "x") (Some 7))
        ≡ Some (codes "fault 22 size " ++ (34 ∷ 120 ∷ 34 ∷ 32 ∷ 55 ∷ 10 ∷ [])) }
    ensures size_of_frame { check_line (checks.Size (codes "x") None)
        ≡ Some (codes "fault 22 size " ++ (34 ∷ 120 ∷ 34 ∷ 32 ∷ 45 ∷ 10 ∷ [])) }
    ensures root { check_line (checks.Root (codes "x")) ≡ Some (codes "fault 24 root " ++ (34 ∷ 120 ∷ 34 ∷ 10 ∷ [])) }
    ensures circle { names_line (codes "fault 23 recursion") (codes "x" ∷ codes "y" ∷ codes "x" ∷ [])
        ≡ codes "fault 23 recursion" ++ (32 ∷ 34 ∷ 120 ∷ 34 ∷ 32 ∷ 34 ∷ 121 ∷ 34 ∷ 32 ∷ 34 ∷ 120 ∷ 34 ∷ 10 ∷ []) }
    ensures name_of_c { refusal_line (UnknownName (codes "x")) ≡ codes "fault 94 name " ++ (34 ∷ 120 ∷ 34 ∷ 10 ∷ []) }
    ensures duplicate_of_c { refusal_line (DuplicateName (codes "x"))
        ≡ codes "fault 95 duplicate " ++ (34 ∷ 120 ∷ 34 ∷ 10 ∷ []) }
    ensures type_of_c { refusal_line (MistypedAt (record { offset = 9; line = 2; column = 13 }))
        ≡ codes "fault 96 type 2 13" ++ (10 ∷ []) }
    ensures circle_of_c { refusal_line (Recursion (codes "x" ∷ codes "x" ∷ []))
        ≡ codes "fault 97 recursion" ++ (32 ∷ 34 ∷ 120 ∷ 34 ∷ 32 ∷ 34 ∷ 120 ∷ 34 ∷ 10 ∷ []) }
    ensures root_of_c { refusal_line (NoRoot (codes "x")) ≡ codes "fault 98 root " ++ (34 ∷ 120 ∷ 34 ∷ 10 ∷ []) }
{}
