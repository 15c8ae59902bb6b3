//! Bits in words.

ghost use Rattle.std.specs.Prelude.{◌≡◌, ℕ, ◌+◌, ◌-◌, ◌*◌, ◌/◌, ◌%◌, ◌^◌, ◌<◌, ◌≤◌, length, slice_index, slice_set};
ghost use Rattle.std.specs.Prelude.{bit_or, bit_and};
ghost use Rattle.std.specs.Int.{bit_not, w64};
ghost use Rattle.recorder_rules.specs.BitWords.{words_for, is_marked, AreInRange, IsNextMark};

/// The words that hold so many bits.
pub fn words(count: u32) -> usize
    ensures { result ≡ words_for count }
{
    (count as usize + 63) / 64
}

/// Whether the bit b of those that begin at the word `base` is set.
pub fn is_marked_at(words: &[u64], base: usize, b: u32) -> bool
    requires { base + b / 64 < length words.now }
    ensures { result ≡ is_marked words.now base b }
{
    (words[base + b as usize / 64] >> (b % 64)) & 1 == 1
}

/// Sets the bit b of those that begin at the word `base`.
pub fn mark(words: &mut [u64], base: usize, b: u32)
    requires { base + b / 64 < length words.old }
    ensures { words.new
        ≡ slice_set words.old (base + b / 64)
        (bit_or (slice_index words.old (base + b / 64)) (1 * 2 ^ (b % 64) % 2 ^ 64)) }
{
    words[base + b as usize / 64] |= 1 << (b % 64);
}

/// Adds the bits of `count` words of `from`, from the word `start` on, to those from `at` on.
pub fn add_words(into: &mut [u64], at: usize, from: &[u64], start: usize, count: usize)
    requires into { at + count ≤ length into.old }
    requires from { start + count ≤ length from.now }
    ensures { AreInRange at count (λ i. bit_or (slice_index into.old i) (slice_index from.now (start + (i - at))))
        into.old into.new }
{
    for j in 0..count {
        into[at + j] |= from[start + j];
    }
}

/// Keeps of the bits those that are set in `from`, from the word `start` on.
pub fn keep_words(into: &mut [u64], from: &[u64], start: usize)
    requires { start + length into.old ≤ length from.now }
    ensures words { AreInRange 0 (length into.old)
        (λ i. bit_and (slice_index into.old i) (slice_index from.now (start + i))) into.old into.new }
    ensures small { (i : ℕ) → slice_index into.new i < 2 ^ 64 }
{
    for j in 0..into.len() {
        into[j] &= from[start + j];
    }
}

/// Clears the bits that are marked.
pub fn clear_marks(words: &mut [u64], marks: &[u64])
    requires { length words.old ≡ length marks.now }
    ensures { AreInRange 0 (length words.old)
        (λ i. bit_and (slice_index words.old i) (bit_not w64 (slice_index marks.now i))) words.old words.new }
{
    for j in 0..words.len() {
        words[j] &= !marks[j];
    }
}

/// Clears `count` words from the word `at` on.
pub fn clear_words(words: &mut [u64], at: usize, count: usize)
    requires { at + count ≤ length words.old }
    ensures { AreInRange at count (λ i. 0) words.old words.new }
{
    for j in 0..count {
        words[at + j] = 0;
    }
}

/// The least marked place from `start` on, or a place past the end.
pub fn next_mark(marks: &[u64], start: usize) -> usize
    requires few { length marks.now < 2 ^ 32 }
    requires start { start ≤ 64 * length marks.now }
    ensures { IsNextMark marks.now start result }
{
    let mut place = start;
    while place / 64 < marks.len() {
        let rest = marks[place / 64] >> (place % 64);
        if rest != 0 {
            return place + rest.trailing_zeros() as usize;
        }
        place = (place / 64 + 1) * 64;
    }
    place
}
