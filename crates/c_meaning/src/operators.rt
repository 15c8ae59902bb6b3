//! Operators at operands that are known, worked out apart from the definitions.

ghost use Rattle.std.specs.Prelude.{◌≡◌, Err};
ghost use Rattle.alf_ops.specs.declared.history.Value.TheVariants.{Int, Ptr};
ghost use Rattle.alf_ops.specs.declared.history.RunFault.TheVariants as faults;
ghost use Rattle.c_unit.specs.declared.types.Integer.TheVariants as types;
ghost use Rattle.c_unit.specs.declared.types.Scalar.TheVariants as scalars;
ghost use Rattle.c_unit.specs.declared.expression.Binary.TheVariants.{Divide, Remainder, Add, Subtract, ShiftLeft};
ghost use Rattle.c_unit.specs.declared.expression.Binary.TheVariants.{ShiftRight, Less, Greater, AtMost, AtLeast};
ghost use Rattle.c_unit.specs.declared.expression.Binary.TheVariants.{Equal, Unequal, And, Xor, Or, Both, Either};
ghost use Rattle.c_meaning.specs.Values.{negation, complement, opposite, cast_to, binary_value};
ghost use Rattle.c_meaning.specs.WorkedOperators.{is, minus, of_ints, of_unsigned, into, of_pointers, moved, faulty};

/// The bits of both words, of either and of just one, and each bit turned.
pub fn bits_are_combined()
    ensures both { of_ints And 12 10 ≡ is 8 }
    ensures either { of_ints Or 12 10 ≡ is 14 }
    ensures just_one { of_ints Xor 12 10 ≡ is 6 }
    ensures turned { complement (Int 32 10) ≡ is (minus 11) }
    ensures opposite { negation (Int 32 10) ≡ is (minus 10) }
{}

/// What is not 0 holds; `&&` and `||` go on to the right only where the left does not decide, and
/// `!` turns.
pub fn conditions_are_zero_or_one()
    ensures zero { opposite (Int 32 0) ≡ is 1 }
    ensures other { opposite (Int 32 7) ≡ is 0 }
    ensures neither { of_ints Either 0 0 ≡ is 0 }
    ensures left { of_ints Either 7 0 ≡ is 1 }
    ensures right { of_ints Either 0 7 ≡ is 1 }
    ensures both { of_ints Both 7 2 ≡ is 1 }
    ensures one { of_ints Both 7 0 ≡ is 0 }
    ensures first { of_ints Both 0 7 ≡ is 0 }
    ensures decided { binary_value Either (scalars.Integer types.Int) (scalars.Integer types.Int) (is 7) faulty ≡ is 1 }
    ensures refuted { binary_value Both (scalars.Integer types.Int) (scalars.Integer types.Int) (is 0) faulty ≡ is 0 }
    ensures faulted { binary_value Either (scalars.Integer types.Int) (scalars.Integer types.Int) (is 0) faulty
        ≡ Err faults.Divide }
{}

/// A shift to the left doubles and cuts; one to the right halves, keeps the sign of an `int`, and
/// rounds down.
pub fn shifts_move_bits()
    ensures doubled { of_ints ShiftLeft 5 1 ≡ is 10 }
    ensures cut { of_ints ShiftLeft 3 31 ≡ is 2147483648 }
    ensures halved { of_ints ShiftRight (minus 8) 1 ≡ is (minus 4) }
    ensures rounded { of_ints ShiftRight (minus 7) 1 ≡ is (minus 4) }
    ensures without_sign { of_unsigned ShiftRight (minus 8) 1 ≡ is 2147483644 }
{}

/// Words of type `int` are ordered with their signs, those of type `unsigned int` without.
pub fn numbers_are_ordered_with_their_signs()
    ensures less { of_ints Less (minus 1) 0 ≡ is 1 }
    ensures not_less { of_ints Less 0 (minus 1) ≡ is 0 }
    ensures level { of_ints Less 3 3 ≡ is 0 }
    ensures without_sign { of_unsigned Less (minus 1) 0 ≡ is 0 }
    ensures great { of_unsigned Less 0 (minus 1) ≡ is 1 }
    ensures greater { of_ints Greater 0 (minus 1) ≡ is 1 }
    ensures not_greater { of_ints Greater 3 3 ≡ is 0 }
    ensures at_most { of_ints AtMost 3 3 ≡ is 1 }
    ensures more { of_ints AtMost 4 3 ≡ is 0 }
    ensures at_least { of_ints AtLeast 3 3 ≡ is 1 }
    ensures fewer { of_ints AtLeast 3 4 ≡ is 0 }
    ensures equal { of_ints Equal 3 3 ≡ is 1 }
    ensures unequal { of_ints Unequal 3 3 ≡ is 0 }
{}

/// A quotient goes toward 0, and a remainder has the sign of what is divided; without a sign words
/// are divided as they stand.
pub fn quotients_go_toward_zero()
    ensures negative { of_ints Divide (minus 7) 2 ≡ is (minus 3) }
    ensures rest { of_ints Remainder (minus 7) 2 ≡ is (minus 1) }
    ensures by_negative { of_ints Divide 7 (minus 2) ≡ is (minus 3) }
    ensures rest_by_negative { of_ints Remainder 7 (minus 2) ≡ is 1 }
    ensures without_sign { of_unsigned Divide (minus 7) 2 ≡ is 2147483644 }
    ensures by_zero { of_ints Remainder 7 0 ≡ Err faults.Divide }
{}

/// Pointers into one object are ordered and have a distance in elements; those into two are
/// unequal, and neither ordered nor subtracted.
pub fn pointers_are_placed_in_their_objects()
    ensures before { of_pointers types.Int Less (into 3 4) (into 3 8) ≡ is 1 }
    ensures behind { of_pointers types.Int Less (into 3 8) (into 3 4) ≡ is 0 }
    ensures apart { of_pointers types.Int Less (into 3 4) (into 5 8) ≡ Err faults.Pointers }
    ensures elements { of_pointers types.Int Subtract (into 3 12) (into 3 4) ≡ is 2 }
    ensures backwards { of_pointers types.Int Subtract (into 3 4) (into 3 12) ≡ is (minus 2) }
    ensures bytes { of_pointers types.Char Subtract (into 3 12) (into 3 4) ≡ is 8 }
    ensures no_distance { of_pointers types.Int Subtract (into 3 12) (into 5 4) ≡ Err faults.Pointers }
    ensures same { of_pointers types.Int Equal (into 3 4) (into 3 4) ≡ is 1 }
    ensures other_object { of_pointers types.Int Equal (into 3 4) (into 5 4) ≡ is 0 }
    ensures other_offset { of_pointers types.Int Equal (into 3 4) (into 3 8) ≡ is 0 }
    ensures unequal { of_pointers types.Int Unequal (into 3 4) (into 5 4) ≡ is 1 }
    ensures further { moved types.Int Add (into 3 4) 2 ≡ into 3 12 }
    ensures nearer { moved types.Short Subtract (into 3 4) 1 ≡ into 3 2 }
{}

/// A cast keeps the lowest bits of the type, and its sign; a pointer keeps its place.
pub fn casts_keep_the_lowest_bits()
    ensures signed_byte { cast_to (scalars.Integer types.Char) (Int 32 200) ≡ is (minus 56) }
    ensures byte { cast_to (scalars.Integer types.UnsignedChar) (Int 32 456) ≡ is 200 }
    ensures signed_short { cast_to (scalars.Integer types.Short) (Int 32 65535) ≡ is (minus 1) }
    ensures short { cast_to (scalars.Integer types.UnsignedShort) (Int 32 65537) ≡ is 1 }
    ensures word { cast_to (scalars.Integer types.Int) (Int 32 (minus 1)) ≡ is (minus 1) }
    ensures pointer { cast_to (scalars.Pointer types.Char) (Ptr 3 4) ≡ into 3 4 }
    ensures no_word { cast_to (scalars.Integer types.Char) (Ptr 3 4) ≡ Err faults.Kind }
{}
