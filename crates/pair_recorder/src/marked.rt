//! Rows of bits, those of marked places.

ghost use Rattle.std.specs.Prelude.{◌≡◌, ◌*◌, ◌^◌, ◌<◌, ◌≤◌, length, slice_index, bit_or};
ghost use Rattle.recorder_rules.specs.BitWords.{AreRows};

use crate::words::{add_words, clear_words, next_mark};

/// Adds the marked rows of `from`. A row has as many words as there are words of marks.
pub fn add_marked(into: &mut [u64], from: &[u64], marks: &[u64], count: usize)
    requires count { count ≤ 64 * length marks.now }
    requires few { length marks.now < 2 ^ 32 }
    requires into { length into.old ≡ count * length marks.now }
    requires from { length from.now ≡ count * length marks.now }
    ensures { AreRows count (length marks.now) marks.now (λ i. bit_or (slice_index into.old i) (slice_index from.now i))
        into.old into.new }
{
    let width = marks.len();
    let mut place = next_mark(marks, 0);
    while place < count {
        add_words(into, place * width, from, place * width, width);
        place = next_mark(marks, place + 1);
    }
}

/// Clears the marked rows.
pub fn clear_marked(words: &mut [u64], marks: &[u64], count: usize)
    requires count { count ≤ 64 * length marks.now }
    requires few { length marks.now < 2 ^ 32 }
    requires words { length words.old ≡ count * length marks.now }
    ensures { AreRows count (length marks.now) marks.now (λ i. 0) words.old words.new }
{
    let width = marks.len();
    let mut place = next_mark(marks, 0);
    while place < count {
        clear_words(words, place * width, width);
        place = next_mark(marks, place + 1);
    }
}
