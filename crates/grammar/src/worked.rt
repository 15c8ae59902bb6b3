//! A small grammar, worked out apart from the definitions.

ghost use Rattle.std.specs.Prelude.{◌≡◌, [], ◌∷◌, Ok, Err};
ghost use Rattle.grammar.specs.Worked.{at, read, item, numbers, lessened};

/// A part begins where the one before it ends, and a chain takes in its parts from left to right; a departure
/// stands where the text does not go on.
pub fn parts_follow_one_another()
    ensures one { read item (3 ∷ 2 ∷ []) ≡ Ok (3, at (2 ∷ [])) }
    ensures departs { read item (0 ∷ 5 ∷ []) ≡ Err 2 }
    ensures end { read item [] ≡ Err 0 }
    ensures many { read numbers (3 ∷ 2 ∷ 0 ∷ 1 ∷ []) ≡ Ok (3 ∷ 2 ∷ [], at (0 ∷ 1 ∷ [])) }
    ensures chain { read (lessened 9) (3 ∷ 2 ∷ 0 ∷ []) ≡ Ok (4, at (0 ∷ [])) }
{}
