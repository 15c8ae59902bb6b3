//! What the progressions of the definitions have, as laws.

ghost use Rattle.std.specs.Prelude.{◌≢◌, ◌↔◌, ◌⊎◌, ◌≤◌, ℕ, ℤ, pos, neg_ℤ, ◌+ℤ◌, ◌-ℤ◌, ◌*ℤ◌, ◌≤ℤ◌, ◌<ℤ◌, ◌<◌};
ghost use Rattle.std.specs.Int.{int_div_euclid};
ghost use Rattle.progressions.specs.declared.ends.Progression.{Progression as Numbers};
ghost use Rattle.progressions.specs.Progressions.{Has, IsProgression, IsPlaced, HasSome, full, half, hull};
ghost use Rattle.progressions.specs.Images.{moved, negated, sums, differences, products, multiples, quotients};
ghost use Rattle.progressions.specs.Parts.{from_least, up_to, without_first, without_last, unsigned_pieces};
ghost use Rattle.progressions.specs.Parts.{signed_pieces, SomeHas};

/// A hull has the numbers of both, is a progression, and lies in each progression that has them.
pub fn hulls_are_least()
    ensures first { (p q : Numbers) (n : ℤ) → Has p n → Has (hull p q) n }
    ensures second { (p q : Numbers) (n : ℤ) → Has q n → Has (hull p q) n }
    ensures progression { (p q : Numbers) → IsProgression p → IsProgression q → IsProgression (hull p q) }
    ensures least { (p q r : Numbers) (n : ℤ) → IsProgression p → IsProgression q → ((m : ℤ) → Has p m → Has r m)
        → ((m : ℤ) → Has q m → Has r m) → Has (hull p q) n → Has r n }
{}

/// A part has the numbers that its name says, and no others.
pub fn parts_are_exact()
    ensures from_least { (least : ℤ) (p : Numbers) (n : ℤ) → IsProgression p
        → HasSome (from_least least p) n ↔ (Has p n × (least ≤ℤ n)) }
    ensures up_to { (greatest : ℤ) (p : Numbers) (n : ℤ) → IsProgression p
        → HasSome (up_to greatest p) n ↔ (Has p n × (n ≤ℤ greatest)) }
    ensures without_first { (p : Numbers) (n : ℤ) → IsProgression p
        → HasSome (without_first p) n ↔ (Has p n × (n ≢ p.lo)) }
    ensures without_last { (p : Numbers) (n : ℤ) → IsProgression p
        → HasSome (without_last p) n ↔ (Has p n × (n ≢ p.hi)) }
{}

/// The pieces have the numbers of the range that a number of the progression is modulo 2 to the size.
pub fn pieces_are_exact()
    ensures unsigned { (w : ℕ) (p : Numbers) (n : ℤ) → 1 ≤ w → IsPlaced w p
        → SomeHas (unsigned_pieces w p) n
        ↔ ((pos 0 ≤ℤ n) × (n <ℤ full w) × (Has p (n -ℤ full w) ⊎ (Has p n ⊎ Has p (n +ℤ full w)))) }
    ensures signed { (w : ℕ) (p : Numbers) (n : ℤ) → 1 ≤ w → IsPlaced w p
        → SomeHas (signed_pieces w p) n ↔ ((neg_ℤ (half w) ≤ℤ n) × (n <ℤ half w) × (Has p n ⊎ Has p (n +ℤ full w))) }
{}

/// An image has what arithmetic makes of the numbers; of one number added or turned, nothing else.
pub fn images_have_all()
    ensures moved { (d : ℤ) (p : Numbers) (n : ℤ) → Has (moved d p) n ↔ Has p (n -ℤ d) }
    ensures negated { (p : Numbers) (n : ℤ) → IsProgression p → Has (negated p) n ↔ Has p (neg_ℤ n) }
    ensures sums { (p q : Numbers) (n m : ℤ) → Has p n → Has q m → Has (sums p q) (n +ℤ m) }
    ensures differences { (p q : Numbers) (n m : ℤ) → IsProgression q → Has p n → Has q m
        → Has (differences p q) (n -ℤ m) }
    ensures products { (p q : Numbers) (n m : ℤ) → IsProgression p → IsProgression q → Has p n → Has q m
        → Has (products p q) (n *ℤ m) }
    ensures multiples { (d : ℕ) (p : Numbers) (n : ℤ) → Has p n → Has (multiples (pos d) p) (n *ℤ pos d) }
    ensures quotients { (d : ℕ) (p : Numbers) (n : ℤ) → 0 < d → Has p n
        → Has (quotients (pos d) p) (int_div_euclid n (pos d)) }
{}
