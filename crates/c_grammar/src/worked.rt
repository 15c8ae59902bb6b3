//! Symbols, types and small units, read by hand.

ghost use Rattle.std.specs.Prelude.{◌≡◌, [], ◌∷◌, codes, Some, None, Ok, Err, true, false};
ghost use Rattle.c_grammar.specs.declared.specifiers.Base.TheVariants as bases;
ghost use Rattle.c_grammar.specs.declared.specifiers.NextWord.TheVariants as nexts;
ghost use Rattle.c_grammar.specs.declared.specifiers.Setting.TheVariants as settings;
ghost use Rattle.c_grammar.specs.declared.specifiers.Sign.TheVariants as signs;
ghost use Rattle.c_grammar.specs.declared.symbol.Lead.TheVariants as leads;
ghost use Rattle.c_grammar.specs.declared.symbol.Symbol.TheVariants as symbols;
ghost use Rattle.c_grammar.specs.declared.symbol.TypeWord.TheVariants as words;
ghost use Rattle.c_tokens.specs.declared.token.Kind.TheVariants as kinds;
ghost use Rattle.c_unit.specs.Tree.{GlobalInteger, GlobalArray, Declaration, Definition, Returns, OfExpression, OfName};
ghost use Rattle.c_unit.specs.Tree.{OfConstant, WithBinary, WithCast, WithUnary, AtIndex, InParentheses, ForAfter};
ghost use Rattle.c_unit.specs.Tree.{Does, Assigns, Steps, Block, If, Continue, Switch, Case, Default, Break, Then};
ghost use Rattle.c_unit.specs.Tree.{Nothing};
ghost use Rattle.c_unit.specs.declared.expression.Binary.TheVariants as binaries;
ghost use Rattle.c_unit.specs.declared.expression.Unary.TheVariants as unaries;
ghost use Rattle.c_unit.specs.declared.types.Integer.TheVariants.{Int, UnsignedInt, UnsignedShort, Short, Char};
ghost use Rattle.c_unit.specs.declared.types.Outcome.TheVariants as outcomes;
ghost use Rattle.c_unit.specs.declared.types.Scalar.TheVariants as scalars;
ghost use Rattle.c_grammar.specs.Symbols.{symbol_of, lead_of};
ghost use Rattle.c_grammar.specs.Tokens.{Syntax, OutOfProfile};
ghost use Rattle.c_grammar.specs.Words.{outcome_among, with_word};
ghost use Rattle.c_grammar.specs.Worked.{trees_in};

/// A mark is an operator, a step or a bracket of the profile, or has no place in it; a word of C outside the
/// profile and a name of more than 28 bytes have none either.
pub fn marks_and_words_are_symbols()
    ensures shift { symbol_of kinds.Punctuator (codes "<<=") ≡ symbols.Update binaries.ShiftLeft }
    ensures at_least { symbol_of kinds.Punctuator (codes ">=") ≡ symbols.Operator binaries.AtLeast }
    ensures unequal { symbol_of kinds.Punctuator (codes "!=") ≡ symbols.Operator binaries.Unequal }
    ensures both { symbol_of kinds.Punctuator (codes "&&") ≡ symbols.Operator binaries.Both }
    ensures or_update { symbol_of kinds.Punctuator (codes "|=") ≡ symbols.Update binaries.Or }
    ensures down { symbol_of kinds.Punctuator (codes "--") ≡ symbols.Step false }
    ensures equal { symbol_of kinds.Punctuator (codes "==") ≡ symbols.Operator binaries.Equal }
    ensures arrow { symbol_of kinds.Punctuator (codes "->") ≡ symbols.Unplaced }
    ensures goto_word { symbol_of kinds.Identifier (codes "goto") ≡ symbols.Unplaced }
    ensures long_name { symbol_of kinds.Identifier (codes "abcdefghijklmnopqrstuvwxyzabc") ≡ symbols.Unplaced }
    ensures name { symbol_of kinds.Identifier (codes "abcdefghijklmnopqrstuvwxyzab") ≡ symbols.Name }
    ensures number { symbol_of kinds.Number (codes "010") ≡ symbols.Constant 8 }
    ensures load { lead_of (symbols.Operator binaries.Multiply) ≡ Some (leads.Prefix unaries.Load) }
    ensures address { lead_of (symbols.Operator binaries.And) ≡ Some (leads.Prefix unaries.Address) }
{}

/// The words of a type are one of its spellings, in any order; `void` stands alone, and `static` at file level alone.
pub fn words_make_a_type()
    ensures unsigned_short { outcome_among bases.ShortInt signs.Unsigned ≡ Some (outcomes.Integer UnsignedShort) }
    ensures signed { outcome_among bases.Unsaid signs.Signed ≡ Some (outcomes.Integer Int) }
    ensures char { outcome_among bases.Char signs.Unsaid ≡ Some (outcomes.Integer Char) }
    ensures none { outcome_among bases.Unsaid signs.Unsaid ≡ None }
    ensures int_short { with_word settings.Block
        (record { base = bases.Int; sign = signs.Unsaid; is_static = false; is_const = false })
        (symbols.Type words.Short)
        ≡ nexts.Fits (record { base = bases.ShortInt; sign = signs.Unsaid; is_static = false; is_const = false }) }
    ensures twice { with_word settings.Block
        (record { base = bases.Int; sign = signs.Signed; is_static = false; is_const = false })
        (symbols.Type words.Unsigned) ≡ nexts.Wrong }
    ensures void { with_word settings.File
        (record { base = bases.Int; sign = signs.Unsaid; is_static = false; is_const = false })
        (symbols.Type words.Void) ≡ nexts.Wrong }
    ensures static_local { with_word settings.Block
        (record { base = bases.Int; sign = signs.Unsaid; is_static = false; is_const = false }) symbols.Static
        ≡ nexts.Outside }
{}

/// Operators of one rank take in their operands from left to right, and those of a higher rank first; a unit that
/// breaks off departs at its end.
pub fn units_have_their_trees()
    ensures integer { trees_in (codes "int x;")
        ≡ Ok (Declaration 0 (outcomes.Integer Int) (record { name = 1; shape = GlobalInteger None } ∷ []) ∷ []) }
    ensures open { trees_in (codes "int x") ≡ Err (Syntax None) }
    ensures outside { trees_in (codes "long x;") ≡ Err (OutOfProfile 0) }
    ensures ranks { trees_in (codes "int f(int x){return x-1-x*2;}")
        ≡ Ok
        (Definition 0 (outcomes.Integer Int) 1 (record { first = 3; kind = scalars.Integer Int; name = Some 4 } ∷ [])
        (Returns 7
        (Some
        (OfExpression
        (WithBinary binaries.Subtract 11 (WithBinary binaries.Subtract 9 (OfName 8) (OfConstant 10))
        (WithBinary binaries.Multiply 13 (OfName 12) (OfConstant 14))))) ∷ []) ∷ []) }
    ensures held { trees_in (codes "int x=4;")
        ≡ Ok
        (Declaration 0 (outcomes.Integer Int)
        (record { name = 1; shape = GlobalInteger (Some (record { minus = false; token = 3 })) } ∷ []) ∷ []) }
    ensures array { trees_in (codes "int a[5]={1,-2};")
        ≡ Ok
        (Declaration 0 (outcomes.Integer Int)
        (record {
          name = 1;
          shape = GlobalArray 3 (Some (record { minus = false; token = 7 } ∷ record { minus = true; token = 10 } ∷ []));
        }
        ∷ []) ∷ []) }
    ensures casts { trees_in (codes "int g(int*p){return(char)p[1]*-(*p);}")
        ≡ Ok
        (Definition 0 (outcomes.Integer Int) 1 (record { first = 3; kind = scalars.Pointer Int; name = Some 5 } ∷ [])
        (Returns 8
        (Some
        (OfExpression
        (WithBinary binaries.Multiply 16 (WithCast 9 (scalars.Integer Char) (AtIndex (OfName 12) 13 (OfConstant 14)))
        (WithUnary unaries.Minus 17 (InParentheses 18 (WithUnary unaries.Load 19 (OfName 20))))))) ∷ []) ∷ []) }
    ensures steps { trees_in (codes "void f(int x){++x;x--;}")
        ≡ Ok
        (Definition 0 outcomes.Nothing 1 (record { first = 3; kind = scalars.Integer Int; name = Some 4 } ∷ [])
        (Does (Steps (OfName 8) true 7) ∷ Does (Steps (OfName 10) false 11) ∷ []) ∷ []) }
    ensures statements { trees_in
        (codes "void f(int x){for(x=0;x<3;x++){if(x==1)continue;}switch(x){case 1:return;default:break;}}")
        ≡ Ok
        (Definition 0 outcomes.Nothing 1 (record { first = 3; kind = scalars.Integer Int; name = Some 4 } ∷ [])
        (ForAfter (Does (Assigns (OfName 9) 10 (OfExpression (OfConstant 11))))
        (Some (WithBinary binaries.Less 14 (OfName 13) (OfConstant 15))) (Some (Steps (OfName 17) true 18))
        (Block (Then (If (WithBinary binaries.Equal 24 (OfName 23) (OfConstant 25)) (Continue 27)) Nothing))
        ∷ Switch (OfName 32)
        (Then (Case 35 (record { minus = false; token = 36 }))
        (Then (Returns 38 None) (Then (Default 40) (Then (Break 42) Nothing)))) ∷ []) ∷ []) }
{}
