//! Checks of small units, worked out apart from the definitions.

ghost use Rattle.std.specs.Prelude.{◌≡◌, Some, None, [], ◌∷◌, codes, true, false};
ghost use Rattle.c_unit.specs.declared.types.Integer.TheVariants.{Char, UnsignedChar, Short, UnsignedShort, Int};
ghost use Rattle.c_unit.specs.declared.types.Integer.TheVariants.{UnsignedInt};
ghost use Rattle.c_rules.specs.Types.{common};
ghost use Rattle.c_rules.specs.Units.{faults_in};
ghost use Rattle.c_rules.specs.Recursion.{calls_of, names_of};
ghost use Rattle.c_rules.specs.Programs.{UnknownName, DuplicateName, MistypedAt, first_refusal, has_root};
ghost use Rattle.c_rules.specs.Worked.{in_a_circle, with_an_unknown_name, without_main, with_a_name_twice};
ghost use Rattle.c_rules.specs.Worked.{with_a_lone_break, with_a_cast_of_a_number, without_a_definition};
ghost use Rattle.c_rules.specs.Worked.{with_a_local_called, with_nothing_returned, with_an_inner_name};
ghost use Rattle.c_rules.specs.Worked.{with_a_parameter_twice, with_a_label_twice, with_a_pointer_as_condition};
ghost use Rattle.c_rules.specs.Worked.{found_in, entry_a, entry_b};

/// Small types are converted to `int`, and an `int` beside an `unsigned int` is converted to that.
pub fn small_types_become_int()
    ensures small { common UnsignedChar UnsignedShort ≡ Int }
    ensures signed { common Char Int ≡ Int }
    ensures left { common UnsignedInt Short ≡ UnsignedInt }
    ensures right { common Int UnsignedInt ≡ UnsignedInt }
{}

/// A name that is not declared is unknown, and one that is declared twice is told.
pub fn names_are_declared_once()
    ensures unknown { first_refusal with_an_unknown_name ≡ Some (UnknownName (codes "y")) }
    ensures twice { first_refusal with_a_name_twice ≡ Some (DuplicateName (codes "a")) }
{}

/// A `break` outside loops and switches is wrong where it stands, and a cast of a number to a pointer type
/// where the cast begins.
pub fn what_is_wrong_has_a_place()
    ensures lone { first_refusal with_a_lone_break ≡ Some (MistypedAt (record { offset = 15; line = 1; column = 16 })) }
    ensures cast { first_refusal with_a_cast_of_a_number
        ≡ Some (MistypedAt (record { offset = 25; line = 1; column = 26 })) }
{}

/// Functions that call one another are found by the order of their definitions.
pub fn a_circle_is_told_by_its_names()
    ensures text { faults_in in_a_circle ≡ [] }
    ensures calls { calls_of in_a_circle ≡ (1 ∷ []) ∷ (0 ∷ []) ∷ (1 ∷ []) ∷ [] }
    ensures names { names_of in_a_circle (0 ∷ 1 ∷ 0 ∷ []) ≡ codes "g" ∷ codes "f" ∷ codes "g" ∷ [] }
{}

/// A unit without a function of the root's name has no root.
pub fn a_root_is_defined()
    ensures text { faults_in without_main ≡ [] }
    ensures none { has_root without_main (codes "main") ≡ false }
    ensures some { has_root without_main (codes "f") ≡ true }
{}

/// A function that is called has a definition, and its name means no local there; what a `void` function
/// gives is not used.
pub fn calls_name_functions_that_are_defined()
    ensures prototype { first_refusal without_a_definition ≡ Some (UnknownName (codes "f")) }
    ensures local { first_refusal with_a_local_called
        ≡ Some (MistypedAt (record { offset = 45; line = 1; column = 46 })) }
    ensures nothing { first_refusal with_nothing_returned
        ≡ Some (MistypedAt (record { offset = 37; line = 1; column = 38 })) }
{}

/// A block has a scope of its own, but the outermost one has that of the parameters.
pub fn blocks_are_scopes()
    ensures inner { faults_in with_an_inner_name ≡ [] }
    ensures outermost { first_refusal with_a_parameter_twice ≡ Some (DuplicateName (codes "a")) }
{}

/// Labels are compared after conversion, and a part of `&&` is wrong itself.
pub fn labels_and_conditions_are_converted()
    ensures label { first_refusal with_a_label_twice
        ≡ Some (MistypedAt (record { offset = 43; line = 1; column = 44 })) }
    ensures part { first_refusal with_a_pointer_as_condition
        ≡ Some (MistypedAt (record { offset = 29; line = 1; column = 30 })) }
{}

/// A name is that of the innermost scope that has it.
pub fn inner_names_hide_outer_ones()
    ensures inner { found_in (entry_a Char ∷ []) (entry_a Int ∷ []) ≡ Some (entry_a Char) }
    ensures outer { found_in (entry_b Char ∷ []) (entry_a Int ∷ []) ≡ Some (entry_a Int) }
    ensures none { found_in (entry_b Char ∷ []) [] ≡ None }
{}
