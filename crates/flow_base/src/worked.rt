//! Numbers and places, worked out apart from the definitions.

ghost use Rattle.std.specs.Prelude.{◌≡◌, [], ◌∷◌, codes};
ghost use Rattle.flow_base.specs.Digits.{number_of, prefix_digits};
ghost use Rattle.flow_base.specs.Places.{place_after, place_of};

/// Digits write a number from the highest on, and end where no digit stands.
pub fn digits_write_numbers()
    ensures number { number_of (codes "120") ≡ 120 }
    ensures zeros { number_of (codes "007") ≡ 7 }
    ensures first { prefix_digits (codes "12a3") ≡ codes "12" }
    ensures none { prefix_digits (codes "a1") ≡ [] }
{}

/// A place counts bytes from 0, and lines and the bytes of a line from 1; a line ends after its line feed.
pub fn places_count_lines_and_columns()
    ensures start { place_after [] ≡ record { offset = 0; line = 1; column = 1 } }
    ensures within { place_of (codes "abc") 1 ≡ record { offset = 2; line = 1; column = 3 } }
    ensures feed { place_of (97 ∷ 10 ∷ 98 ∷ []) 2 ≡ record { offset = 1; line = 1; column = 2 } }
    ensures next { place_of (97 ∷ 10 ∷ 98 ∷ []) 1 ≡ record { offset = 2; line = 2; column = 1 } }
    ensures end { place_of (97 ∷ 10 ∷ 98 ∷ []) 0 ≡ record { offset = 3; line = 2; column = 2 } }
{}
