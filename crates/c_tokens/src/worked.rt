//! Constants, worked out apart from the definitions.

ghost use Rattle.std.specs.Prelude.{◌≡◌, [], ◌∷◌, codes, Some, None, true, false, length};
ghost use Rattle.std.specs.Prelude.{◌≡◌, [], ◌∷◌, codes};
ghost use Rattle.c_tokens.specs.declared.token.Kind.TheVariants.{Identifier, Number, Character, StringLiteral};
ghost use Rattle.c_tokens.specs.declared.token.Kind.TheVariants.{Punctuator, White, OpenComment, OpenLiteral, Other};
ghost use Rattle.c_tokens.specs.declared.worth.Worth.TheVariants.{NoConstant, TooLarge, Int, UnsignedInt};
ghost use Rattle.c_tokens.specs.Keywords.{keywords, is_keyword};
ghost use Rattle.c_tokens.specs.Kinds.{kind_of};
ghost use Rattle.c_tokens.specs.Tokens.{tokens_of};
ghost use Rattle.c_tokens.specs.Worth.{number_worth, character_worth};

/// A constant is decimal, octal after `0`, or hexadecimal after `0x`; it is an `int` where it fits there, without
/// sign where it ends in `u` or is not decimal and fits there alone, and else too large.
pub fn constants_have_their_worth()
    ensures decimal { number_worth (codes "2147483647") ≡ Int 2147483647 }
    ensures too_large { number_worth (codes "2147483648") ≡ TooLarge }
    ensures without_sign { number_worth (codes "4294967295u") ≡ UnsignedInt 4294967295 }
    ensures past { number_worth (codes "4294967296U") ≡ TooLarge }
    ensures small { number_worth (codes "7u") ≡ UnsignedInt 7 }
    ensures octal { number_worth (codes "017") ≡ Int 15 }
    ensures no_octal { number_worth (codes "08") ≡ NoConstant }
    ensures hexadecimal { number_worth (codes "0xFf") ≡ Int 255 }
    ensures high { number_worth (codes "0x80000000") ≡ UnsignedInt 2147483648 }
    ensures no_digit { number_worth (codes "0x") ≡ NoConstant }
    ensures zero { number_worth (codes "0") ≡ Int 0 }
    ensures suffix { number_worth (codes "7l") ≡ NoConstant }
{}

/// A character is its byte, and an escape is a line feed, a tab, 0, or the byte after the backslash.
pub fn characters_have_their_worth()
    ensures letter { character_worth (39 ∷ 97 ∷ 39 ∷ []) ≡ Int 97 }
    ensures feed { character_worth (39 ∷ 92 ∷ 110 ∷ 39 ∷ []) ≡ Int 10 }
    ensures tab { character_worth (39 ∷ 92 ∷ 116 ∷ 39 ∷ []) ≡ Int 9 }
    ensures null { character_worth (39 ∷ 92 ∷ 48 ∷ 39 ∷ []) ≡ Int 0 }
    ensures quote { character_worth (39 ∷ 92 ∷ 39 ∷ 39 ∷ []) ≡ Int 39 }
    ensures other { character_worth (39 ∷ 92 ∷ 97 ∷ 39 ∷ []) ≡ NoConstant }
{}

/// Identifiers, numbers and punctuators are as C has them; a number goes on with a sign after its exponent.
pub fn texts_are_of_their_kinds()
    ensures identifier { kind_of (codes "_a1") ≡ Some Identifier }
    ensures digit_first { kind_of (codes "1_a") ≡ Some Number }
    ensures exponent { kind_of (codes "1e+2") ≡ Some Number }
    ensures sum { kind_of (codes "1+2") ≡ None }
    ensures period { kind_of (codes ".5") ≡ Some Number }
    ensures arrow { kind_of (codes "->") ≡ Some Punctuator }
    ensures turned { kind_of (codes "=>") ≡ None }
    ensures shift { kind_of (codes ">>=") ≡ Some Punctuator }
    ensures three { kind_of (codes "+++") ≡ None }
    ensures digraphs { kind_of (codes "%:%:") ≡ Some Punctuator }
    ensures single { kind_of (codes "~") ≡ Some Punctuator }
    ensures no_token { kind_of (codes "@") ≡ Some Other }
{}

/// A comment ends at the first star and slash or at its line; a literal is not empty, goes past an escaped quote,
/// and ends in its line.
pub fn comments_and_literals_end()
    ensures comment { kind_of (codes "/**/") ≡ Some White }
    ensures past { kind_of (codes "/**/ */") ≡ None }
    ensures overlapping { kind_of (codes "/*/") ≡ Some OpenComment }
    ensures line { kind_of (codes "//*") ≡ Some White }
    ensures next_line { kind_of (47 ∷ 47 ∷ 10 ∷ []) ≡ None }
    ensures letter { kind_of (39 ∷ 97 ∷ 39 ∷ []) ≡ Some Character }
    ensures empty { kind_of (39 ∷ 39 ∷ []) ≡ Some OpenLiteral }
    ensures escaped { kind_of (39 ∷ 92 ∷ 39 ∷ 39 ∷ []) ≡ Some Character }
    ensures digits { kind_of (39 ∷ 92 ∷ 120 ∷ 52 ∷ 49 ∷ 39 ∷ []) ≡ Some Character }
    ensures no_escape { kind_of (39 ∷ 92 ∷ 99 ∷ 39 ∷ []) ≡ Some OpenLiteral }
    ensures text { kind_of (34 ∷ 34 ∷ []) ≡ Some StringLiteral }
    ensures wide { kind_of (76 ∷ 39 ∷ 97 ∷ 39 ∷ []) ≡ Some Character }
{}

/// A token is the longest that begins at its place, and white space is none.
pub fn tokens_are_the_longest()
    ensures plus { tokens_of (codes "a+++b")
        ≡ record { kind = Identifier; text = codes "a"; left = 5 }
        ∷ record { kind = Punctuator; text = codes "++"; left = 4 }
        ∷ record { kind = Punctuator; text = codes "+"; left = 2 }
        ∷ record { kind = Identifier; text = codes "b"; left = 1 } ∷ [] }
    ensures blanks { tokens_of (9 ∷ 10 ∷ 13 ∷ 32 ∷ 97 ∷ [])
        ≡ record { kind = Identifier; text = codes "a"; left = 1 } ∷ [] }
{}

/// There are 37 keywords, and a name that begins as one is none.
pub fn keywords_are_those_of_c()
    ensures count { length keywords ≡ 37 }
    ensures inline_word { is_keyword (codes "inline") ≡ true }
    ensures restrict_word { is_keyword (codes "restrict") ≡ true }
    ensures whole { is_keyword (codes "_Bool") ≡ true }
    ensures longer { is_keyword (codes "ints") ≡ false }
{}
