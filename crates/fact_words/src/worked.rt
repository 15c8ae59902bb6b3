//! Words and numbers of reports, worked out apart from the definitions.

ghost use Rattle.std.specs.Prelude.{◌≡◌, [], ◌∷◌, codes, true, false, Ok, Err, pos, negsuc};
ghost use Rattle.fact_words.specs.Numbers.{Syntax, Number, number_within, whole_within};
ghost use Rattle.fact_words.specs.Tokens.{tokens_of};

/// A word ends at a space that stands in no quotes, and at the end of its line; there is a word after the last line.
pub fn words_end_at_spaces_and_lines()
    ensures lines { tokens_of (97 ∷ 32 ∷ 98 ∷ 10 ∷ [])
        ≡ record { line = true; text = codes "a"; left = 4 } ∷ record { line = false; text = codes "b"; left = 2 }
        ∷ record { line = true; text = []; left = 0 } ∷ [] }
    ensures quoted { tokens_of (34 ∷ 32 ∷ 34 ∷ 97 ∷ 32 ∷ 98 ∷ [])
        ≡ record { line = true; text = 34 ∷ 32 ∷ 34 ∷ 97 ∷ []; left = 6 }
        ∷ record { line = false; text = codes "b"; left = 1 } ∷ [] }
    ensures open { tokens_of (34 ∷ 10 ∷ 97 ∷ 32 ∷ 98 ∷ [])
        ≡ record { line = true; text = 34 ∷ []; left = 5 } ∷ record { line = true; text = codes "a"; left = 3 }
        ∷ record { line = false; text = codes "b"; left = 1 } ∷ [] }
    ensures twice { tokens_of (97 ∷ 32 ∷ 32 ∷ 98 ∷ [])
        ≡ record { line = true; text = codes "a"; left = 4 } ∷ record { line = false; text = []; left = 2 }
        ∷ record { line = false; text = codes "b"; left = 1 } ∷ [] }
{}

/// A number is its digits, with no zeros before it and no minus before 0; one that is too great is told first.
pub fn numbers_have_one_spelling()
    ensures most { number_within 12 (codes "12") 5 ≡ Ok 12 }
    ensures more { number_within 12 (codes "13") 5 ≡ Err (Number 5) }
    ensures zero { number_within 12 (codes "0") 5 ≡ Ok 0 }
    ensures zeros { number_within 12 (codes "012") 5 ≡ Err (Syntax 5) }
    ensures great_first { number_within 12 (codes "013") 5 ≡ Err (Number 5) }
    ensures none { number_within 12 [] 5 ≡ Err (Syntax 5) }
    ensures letter { number_within 12 (codes "1a") 5 ≡ Err (Syntax 5) }
    ensures negative { whole_within (codes "-3") 5 ≡ Ok (negsuc 2) }
    ensures minus_zero { whole_within (codes "-0") 5 ≡ Err (Syntax 5) }
    ensures least { whole_within (codes "-170141183460469231731687303715884105728") 5
        ≡ Ok (negsuc 170141183460469231731687303715884105727) }
    ensures greatest { whole_within (codes "170141183460469231731687303715884105727") 5
        ≡ Ok (pos 170141183460469231731687303715884105727) }
    ensures past { whole_within (codes "170141183460469231731687303715884105728") 5 ≡ Err (Number 5) }
{}
