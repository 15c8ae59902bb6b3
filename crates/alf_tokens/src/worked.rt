//! Tokens, worked out apart from the definitions.

ghost use Rattle.std.specs.Prelude.{◌≡◌, [], ◌∷◌, codes, false};
ghost use Rattle.alf_tokens.specs.declared.token.Kind.TheVariants.{White, Open, Close, Word, Number, Long, Quoted};
ghost use Rattle.alf_tokens.specs.declared.token.Kind.TheVariants.{Broken};
ghost use Rattle.alf_tokens.specs.Tokens.{piece, tokens_of};

/// Braces, words and numbers are tokens; white space, of which comments are, stands between them.
pub fn texts_have_their_tokens()
    ensures braces { tokens_of (codes "{ a_1 12}")
        ≡ record {
          kind = Open;
          text = codes "{";
          left = 9;
        } ∷ record { kind = Word; text = codes "a_1"; left = 7 }
        ∷ record { kind = Number; text = codes "12"; left = 3 } ∷ record {
          kind = Close;
          text = codes "}";
          left = 1;
        } ∷ [] }
    ensures comment { tokens_of (codes "a/* / */b")
        ≡ record { kind = Word; text = codes "a"; left = 9 } ∷ record { kind = Word; text = codes "b"; left = 1 } ∷ [] }
    ensures blanks { tokens_of (9 ∷ 10 ∷ 13 ∷ 32 ∷ 97 ∷ []) ≡ record { kind = Word; text = codes "a"; left = 1 } ∷ [] }
    ensures name { tokens_of (34 ∷ 97 ∷ 32 ∷ 34 ∷ []) ≡ record { kind = Quoted; text = 97 ∷ 32 ∷ []; left = 4 } ∷ [] }
    ensures apart { tokens_of (codes "1a")
        ≡ record { kind = Number; text = codes "1"; left = 2 } ∷ record { kind = Broken; text = codes "a"; left = 1 }
        ∷ [] }
{}

/// A name has 1 byte and more from the space to the tilde, but no backslash; a comment ends; a number of more
/// than 20 digits is long.
pub fn pieces_end_where_they_must()
    ensures empty { piece false (34 ∷ 34 ∷ []) ≡ (Broken, 2) }
    ensures tilde { piece false (34 ∷ 126 ∷ 34 ∷ []) ≡ (Quoted, 3) }
    ensures past_tilde { piece false (34 ∷ 127 ∷ 34 ∷ []) ≡ (Broken, 3) }
    ensures below_space { piece false (34 ∷ 31 ∷ 34 ∷ []) ≡ (Broken, 3) }
    ensures backslash { piece false (34 ∷ 92 ∷ 34 ∷ []) ≡ (Broken, 3) }
    ensures open { piece false (codes "/* *") ≡ (Broken, 4) }
    ensures closed { piece false (codes "/***/ */") ≡ (White, 5) }
    ensures slash { piece false (codes "/a") ≡ (Broken, 2) }
    ensures twenty { piece false (codes "12345678901234567890") ≡ (Number, 20) }
    ensures more { piece false (codes "123456789012345678901") ≡ (Long, 21) }
{}
