//! Small units, lowered by hand.

ghost use Rattle.std.specs.Prelude.{◌≡◌};
ghost use Rattle.c_meaning.specs.Worked.{with_a_sum, with_a_guard, with_a_switch, with_a_pointer};
ghost use Rattle.c_lowered.specs.Programs.{lowered};
ghost use Rattle.c_lowered.specs.Worked.{the_sum, the_guard, the_switch, the_pointer, with_names, the_names};
ghost use Rattle.c_lowered.specs.Worked.{with_values, the_values};

/// A `for` has its test before its body, and what is done after each turn before the jump back; a call has a
/// frame for its result.
pub fn a_loop_tests_at_its_head()
    ensures { lowered with_a_sum ≡ the_sum }
{}

/// The right side of `&&` has a switch of its own, to which the left side leads where it holds.
pub fn a_guard_is_two_switches()
    ensures { lowered with_a_guard ≡ the_guard }
{}

/// Each label of a switch is a target, and a `char` is cut where it is stored and extended where it is used.
pub fn cases_are_targets()
    ensures { lowered with_a_switch ≡ the_switch }
{}

/// A pointer moves by as many bytes as its elements have, an array is filled element by element, and a `do` has
/// its test at its end.
pub fn a_pointer_moves_by_bytes()
    ensures { lowered with_a_pointer ≡ the_pointer }
{}

/// A name that is declared again has a frame of its own, `!` swaps where a test leads, `continue` leads to the
/// head of a `while`, and an index without a sign has a product without one.
pub fn a_second_declaration_has_a_frame_of_its_own()
    ensures { lowered with_names ≡ the_names }
{}

/// Numbers with and without a sign have operators of their own, what is not `int` is cut where it is stored, and
/// the calls of a function that give something are numbered.
pub fn types_choose_operators()
    ensures { lowered with_values ≡ the_values }
{}
