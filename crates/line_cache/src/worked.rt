//! Lines, sets and accesses of small caches, worked out apart from the definitions.

ghost use Rattle.std.specs.Prelude.{◌≡◌, ◌%◌, ◌∷◌, [], ℕ, true, false};
ghost use Rattle.line_cache.specs.Lines.{notes_of};
ghost use Rattle.line_cache.specs.Lru.{set_of, is_hit, touched, accessed, accesses_at, missed_of};
ghost use Rattle.line_cache.specs.PartLines.{part_lines};
ghost use Rattle.line_cache.specs.Worked.{two_sets, set_ahead, shape};

/// The set of a line is its number modulo the sets.
pub fn lines_have_their_sets()
    ensures all { (sets line : ℕ) → set_of sets line ≡ line % sets }
    ensures third { set_of 4 6 ≡ 2 }
    ensures last { set_of 4 7 ≡ 3 }
    ensures around { set_of 4 8 ≡ 0 }
    ensures only { set_of 1 9 ≡ 0 }
{}

/// With lines of 16 bytes, bytes 28 to 39 lie in lines 1 and 2, bytes 28 to 31 in line 1 alone, and bytes 32 to 48 in
/// lines 2 and 3; a part of no size has no line. Notes are sets, ways and penalty, and then for each part its first
/// line and the number after its last.
pub fn parts_have_their_lines()
    ensures two { part_lines 16 (28, 12) ≡ 1 ∷ 2 ∷ [] }
    ensures one { part_lines 16 (28, 4) ≡ 1 ∷ [] }
    ensures whole { part_lines 16 (32, 16) ≡ 2 ∷ [] }
    ensures byte_more { part_lines 16 (32, 17) ≡ 2 ∷ 3 ∷ [] }
    ensures none { part_lines 16 (28, 0) ≡ [] }
    ensures notes { notes_of shape ((0, 0) ∷ (28, 12) ∷ (40, 8) ∷ []) ≡ 2 ∷ 4 ∷ 10 ∷ 0 ∷ 0 ∷ 1 ∷ 3 ∷ 2 ∷ 3 ∷ [] }
{}

/// A line hits where it stands in its own set, at whatever place. An access puts it first there and cuts the set to
/// its ways; the other sets stay. Lines 0, 2 and 0 of one set miss, miss and hit in a set of two, and all miss in a
/// set of one.
pub fn accesses_hit_what_is_there()
    ensures first { is_hit 2 two_sets 6 ≡ true }
    ensures second { is_hit 2 two_sets 4 ≡ true }
    ensures other { is_hit 2 two_sets 3 ≡ true }
    ensures absent { is_hit 2 two_sets 8 ≡ false }
    ensures other_set { is_hit 2 set_ahead 6 ≡ false }
    ensures moved { touched 2 4 (6 ∷ 4 ∷ []) ≡ 4 ∷ 6 ∷ [] }
    ensures dropped { touched 2 8 (6 ∷ 4 ∷ []) ≡ 8 ∷ 6 ∷ [] }
    ensures own { accessed 2 2 two_sets 8 0 ≡ 8 ∷ 6 ∷ [] }
    ensures stays { accessed 2 2 two_sets 8 1 ≡ 3 ∷ [] }
    ensures accesses { accesses_at 2 2 (λ s. []) 5 (0 ∷ 2 ∷ 0 ∷ [])
        ≡ record { node = 5; line = 0; hits = false } ∷ record { node = 5; line = 2; hits = false }
        ∷ record { node = 5; line = 0; hits = true } ∷ [] }
    ensures two_ways { missed_of (accesses_at 2 2 (λ s. []) 5 (0 ∷ 2 ∷ 0 ∷ [])) ≡ 2 }
    ensures one_way { missed_of (accesses_at 2 1 (λ s. []) 5 (0 ∷ 2 ∷ 0 ∷ [])) ≡ 3 }
{}
