//! Small programs, worked out apart from the definitions.

ghost use Rattle.std.specs.Prelude.{◌≡◌, Some, [], ◌∷◌};
ghost use Rattle.alf_ops.specs.declared.history.Value.TheVariants.{Int};
ghost use Rattle.alf_ops.specs.declared.history.RunFault.TheVariants.{Divide, Uninit, Bounds, Kind};
ghost use Rattle.c_meaning.specs.Programs.{Ended, Stopped, Unfinished, outcome};
ghost use Rattle.c_meaning.specs.Worked.{main, in_first_object, with_a_sum, with_a_guard, with_bytes, with_a_switch};
ghost use Rattle.c_meaning.specs.Worked.{without_an_end, with_a_pointer, with_a_narrow_result, with_a_narrow_root};
ghost use Rattle.c_meaning.specs.Worked.{with_a_pointer_parameter, without_a_value, past_an_array};

/// A loop of three turns in a function gives its sum, which a global holds in the end; with two turns it is
/// not known.
pub fn numbers_are_summed_up()
    ensures sum { outcome with_a_sum main 3 [] ≡ Ended (Some (Int 32 6)) (Some (Int 32 6) ∷ []) }
    ensures fewer { outcome with_a_sum main 2 [] ≡ Unfinished }
{}

/// Where `d` is 0 the right side of `&&` is not evaluated, but the last division faults.
pub fn a_guard_keeps_a_division_from_its_fault()
    ensures zero { outcome with_a_guard main 0 [] ≡ Stopped Divide }
    ensures two { outcome with_a_guard main 0 (in_first_object 2) ≡ Ended (Some (Int 32 1)) (Some (Int 32 2) ∷ []) }
    ensures five { outcome with_a_guard main 0 (in_first_object 5) ≡ Ended (Some (Int 32 2)) (Some (Int 32 5) ∷ []) }
{}

/// A pointer to another type, made by a cast, reads the bytes of an `int`, the lowest first.
pub fn an_integer_is_read_byte_by_byte()
    ensures { outcome with_bytes main 0 [] ≡ Ended (Some (Int 32 513)) (Some (Int 32 258) ∷ []) }
{}

/// A `char` keeps the lowest bits of what it holds, its sign is kept where it is used, and a case goes on
/// into the next.
pub fn a_case_goes_on_into_the_next()
    ensures { outcome with_a_switch main 0 [] ≡ Ended (Some (Int 32 4294967243)) [] }
{}

/// A loop without end has no outcome with five turns.
pub fn a_loop_without_end_uses_up_its_turns()
    ensures { outcome without_an_end main 5 [] ≡ Unfinished }
{}

/// A pointer moves by elements and has a distance; quotients go toward 0, remainders have the sign of what is
/// divided, and a shift to the right rounds down.
pub fn a_pointer_goes_down_an_array()
    ensures two { outcome with_a_pointer main 2 [] ≡ Ended (Some (Int 32 4294967283)) [] }
    ensures one { outcome with_a_pointer main 1 [] ≡ Unfinished }
{}

/// What a function gives is cut to its type: that of a call, which is then widened to the type of a variable, and that
/// of the root.
pub fn a_result_is_cut_to_its_type()
    ensures call { outcome with_a_narrow_result main 0 [] ≡ Ended (Some (Int 32 4294967240)) [] }
    ensures root { outcome with_a_narrow_root main 0 [] ≡ Ended (Some (Int 8 200)) [] }
{}

/// A word where a pointer is wanted, a variable that holds nothing, and an element that an array has not
/// are faults.
pub fn loads_fault_as_runs_do()
    ensures word { outcome with_a_pointer_parameter main 0 (in_first_object 4) ≡ Stopped Kind }
    ensures nothing { outcome without_a_value main 0 [] ≡ Stopped Uninit }
    ensures past { outcome past_an_array main 0 [] ≡ Stopped Bounds }
{}
