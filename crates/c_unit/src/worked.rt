//! Trees and tokens, worked out apart from the definitions.

ghost use Rattle.std.specs.Prelude.{◌≡◌, [], ◌∷◌, codes};
ghost use Rattle.c_tokens.specs.declared.token.Kind.TheVariants.{Identifier};
ghost use Rattle.c_unit.specs.declared.expression.Binary.TheVariants.{Add, Multiply};
ghost use Rattle.c_unit.specs.declared.expression.Unary.TheVariants.{Minus};
ghost use Rattle.c_unit.specs.declared.types.Integer.TheVariants.{Char};
ghost use Rattle.c_unit.specs.declared.types.Scalar.TheVariants as scalars;
ghost use Rattle.c_unit.specs.Measures.{depth_of};
ghost use Rattle.c_unit.specs.Tree.{OfConstant, OfName, InParentheses, WithUnary, WithCast, AtIndex, WithBinary};
ghost use Rattle.c_unit.specs.Units.{word_of};

/// Each operator, cast and index is one deeper than the deepest of its operands; parentheses are no deeper.
pub fn operators_are_nested_in_one_another()
    ensures name { depth_of (OfName 0) ≡ 0 }
    ensures parentheses { depth_of (InParentheses 0 (OfConstant 1)) ≡ 0 }
    ensures deepest { depth_of
        (WithBinary Multiply 5 (InParentheses 0 (WithBinary Add 2 (OfName 1) (OfName 3))) (OfName 6)) ≡ 2 }
    ensures right { depth_of (WithBinary Add 1 (OfName 0) (WithUnary Minus 2 (WithUnary Minus 3 (OfName 4)))) ≡ 3 }
    ensures cast { depth_of (WithCast 0 (scalars.Integer Char) (OfName 3)) ≡ 1 }
    ensures index { depth_of (AtIndex (OfName 0) 1 (AtIndex (OfName 2) 3 (OfName 4))) ≡ 2 }
{}

/// A token stands where as many bytes are left as it tells.
pub fn tokens_stand_at_their_places()
    ensures { word_of (codes "a b") (record { kind = Identifier; text = codes "b"; left = 1 })
        ≡ record { text = codes "b"; place = record { offset = 2; line = 1; column = 3 } } }
{}
