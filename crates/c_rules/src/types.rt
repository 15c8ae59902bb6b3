//! Types of expressions, worked out apart from the definitions.

ghost use Rattle.std.specs.Prelude.{◌≡◌, Some, None, true, false};
ghost use Rattle.c_unit.specs.declared.types.Integer.TheVariants.{Char, UnsignedChar, Short, Int, UnsignedInt};
ghost use Rattle.c_unit.specs.declared.types.Scalar.TheVariants.{Integer, Pointer};
ghost use Rattle.c_unit.specs.declared.expression.Unary.TheVariants.{Not, Minus, Load, Address};
ghost use Rattle.c_unit.specs.declared.expression.Binary.TheVariants.{Add, Subtract, ShiftLeft, ShiftRight, Less};
ghost use Rattle.c_unit.specs.declared.expression.Binary.TheVariants.{Equal, Both};
ghost use Rattle.c_rules.specs.Types.{suits, unary_type, cast_type, index_type, binary_type};

/// A pointer stands only where its very type is wanted, and pointers of two types are neither
/// compared nor subtracted.
pub fn pointers_keep_their_types()
    ensures same { suits (Pointer Int) (Pointer Int) ≡ true }
    ensures other { suits (Pointer Int) (Pointer UnsignedInt) ≡ false }
    ensures narrow { suits (Pointer Char) (Pointer UnsignedChar) ≡ false }
    ensures no_word { suits (Pointer Int) (Integer Int) ≡ false }
    ensures no_pointer { suits (Integer Int) (Pointer Int) ≡ false }
    ensures words { suits (Integer Char) (Integer UnsignedInt) ≡ true }
    ensures compared { binary_type Equal (Pointer Int) (Pointer Int) ≡ Some (Integer Int) }
    ensures unequal_types { binary_type Equal (Pointer Int) (Pointer Char) ≡ None }
    ensures ordered { binary_type Less (Pointer Int) (Pointer Char) ≡ None }
    ensures subtracted { binary_type Subtract (Pointer Int) (Pointer Char) ≡ None }
    ensures distance { binary_type Subtract (Pointer Char) (Pointer Char) ≡ Some (Integer Int) }
    ensures beside_a_word { binary_type Equal (Pointer Int) (Integer Int) ≡ None }
    ensures added { binary_type Add (Pointer Int) (Pointer Int) ≡ None }
    ensures moved { binary_type Add (Integer Char) (Pointer Short) ≡ Some (Pointer Short) }
    ensures cast { cast_type (Pointer Char) (Pointer Int) ≡ Some (Pointer Char) }
    ensures no_cast { cast_type (Pointer Char) (Integer Int) ≡ None }
{}

/// A shift has the promoted type of its left operand, whatever the right one is; a comparison is
/// an `int`.
pub fn operators_have_the_types_of_their_operands()
    ensures shifted { binary_type ShiftLeft (Integer Char) (Integer UnsignedInt) ≡ Some (Integer Int) }
    ensures shifted_right { binary_type ShiftRight (Integer UnsignedInt) (Integer Int) ≡ Some (Integer UnsignedInt) }
    ensures added { binary_type Add (Integer Char) (Integer UnsignedInt) ≡ Some (Integer UnsignedInt) }
    ensures compared { binary_type Less (Integer UnsignedInt) (Integer UnsignedInt) ≡ Some (Integer Int) }
    ensures joined { binary_type Both (Integer UnsignedInt) (Integer Char) ≡ Some (Integer Int) }
    ensures no_pointer { binary_type Both (Pointer Int) (Integer Int) ≡ None }
    ensures indexed { index_type (Pointer Short) (Integer Char) ≡ Some (Integer Short) }
    ensures turned { index_type (Integer Char) (Pointer Short) ≡ None }
{}

/// An address is that of an integer that stands in memory, and a load is through a pointer.
pub fn addresses_are_of_places()
    ensures address { unary_type Address true (Integer Short) ≡ Some (Pointer Short) }
    ensures no_place { unary_type Address false (Integer Short) ≡ None }
    ensures of_pointer { unary_type Address true (Pointer Short) ≡ None }
    ensures load { unary_type Load false (Pointer Short) ≡ Some (Integer Short) }
    ensures no_load { unary_type Load true (Integer Short) ≡ None }
    ensures minus { unary_type Minus false (Integer Char) ≡ Some (Integer Int) }
    ensures not { unary_type Not false (Integer UnsignedInt) ≡ Some (Integer Int) }
    ensures no_not { unary_type Not false (Pointer Int) ≡ None }
{}
