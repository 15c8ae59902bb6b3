//! Arithmetic on words of a size.

ghost use Rattle.std.specs.Prelude.{◌≡◌, ◌+◌, ◌-◌, ◌*◌, ◌/◌, ◌%◌, ◌^◌, ◌<◌, ◌≤◌, pos, neg_ℤ, nat_le, ◌*ℤ◌, ◌-ℤ◌};
ghost use Rattle.std.specs.Prelude.{int_div, int_lt, int_le, if◌then◌else◌, bit_and, bit_or, bit_xor, slice_index};
ghost use Rattle.std.specs.Prelude.{◌==◌, ◌↔◌, IsErr, IfOk};
ghost use Rattle.std.specs.Prelude.{min, max};
ghost use Rattle.std.specs.Int.{int_div_euclid, int_min, int_max};
ghost use Rattle.alf_ops.specs.TwosComplement.{word, signed, is_negative, distance, with_sign as signed_by};
ghost use Rattle.alf_ops.specs.Table.{bit as bit_of};

use crate::divide::Divide;

/// 2 to the size.
fn power(size: u32) -> u128
    requires { size ≤ 64 }
    ensures { result ≡ 2 ^ size }
{
    1 << size
}

/// A number modulo 2 to the size.
pub fn cut(number: u128, size: u32) -> u64
    requires { size ≤ 64 }
    ensures { result ≡ number % 2 ^ size }
{
    (number % power(size)) as u64
}

/// 1 where the test holds, else 0.
pub fn bit(test: bool) -> u64
    ensures { result ≡ word 1 (bit_of test) }
{
    if test { 1 } else { 0 }
}

/// 0 less the word.
#[tactic(auto, using(crate::proofs::Modular::word_negated))]
pub fn negated(size: u32, a: u64) -> u64
    requires size { size ≤ 64 }
    requires fits { a < 2 ^ size }
    ensures { result ≡ word size (neg_ℤ (pos a)) }
{
    cut(power(size) - a as u128, size)
}

/// Each bit turned.
pub fn complement(size: u32, a: u64) -> u64
    requires size { size ≤ 64 }
    requires fits { a < 2 ^ size }
    ensures value { result ≡ 2 ^ size - 1 - a }
    ensures cut { result ≡ (2 ^ size - 1 - a) % 2 ^ size }
{
    (power(size) - 1 - a as u128) as u64
}

/// The sum of two words and a carry.
pub fn sum(size: u32, a: u64, b: u64, c: u64) -> u64
    requires { size ≤ 64 }
    ensures { result ≡ (a + b + c) % 2 ^ size }
{
    cut(a as u128 + b as u128 + c as u128, size)
}

/// The sum of two words and a carry does not fit.
pub fn sum_carry(size: u32, a: u64, b: u64, c: u64) -> bool
    requires { size ≤ 64 }
    ensures { result ≡ nat_le (2 ^ size) (a + b + c) }
{
    a as u128 + b as u128 + c as u128 >= power(size)
}

/// The sum of a word, another with each bit turned, and a carry.
pub fn difference(size: u32, a: u64, b: u64, c: u64) -> u64
    requires size { size ≤ 64 }
    requires fits { b < 2 ^ size }
    ensures { result ≡ (a + (2 ^ size - 1 - b) + c) % 2 ^ size }
{
    sum(size, a, complement(size, b), c)
}

/// That sum does not fit.
pub fn difference_carry(size: u32, a: u64, b: u64, c: u64) -> bool
    requires size { size ≤ 64 }
    requires fits { b < 2 ^ size }
    ensures { result ≡ nat_le (2 ^ size) (a + (2 ^ size - 1 - b) + c) }
{
    sum_carry(size, a, complement(size, b), c)
}

/// The product of two words.
pub fn product(m: u32, n: u32, a: u64, b: u64) -> u64
    requires { m + n ≤ 64 }
    ensures { result ≡ (a * b) % 2 ^ (m + n) }
{
    cut(a as u128 * b as u128, m + n)
}

/// The word is below 0 in two's complement.
pub fn is_negative(size: u32, a: u64) -> bool
    requires least { 1 ≤ size }
    requires size { size ≤ 64 }
    requires fits { a < 2 ^ size }
    ensures { result ≡ is_negative size a }
{
    a as u128 >= power(size - 1)
}

/// The distance of the word from 0 in two's complement.
pub fn distance(size: u32, a: u64) -> u64
    requires least { 1 ≤ size }
    requires size { size ≤ 64 }
    requires fits { a < 2 ^ size }
    ensures { result ≡ distance size a }
{
    if is_negative(size, a) {
        (power(size) - a as u128) as u64
    } else {
        a
    }
}

/// The word of a number that is given by its sign and its distance from 0.
#[tactic(auto, using(crate::proofs::Modular::word_negated_cut))]
fn with_sign(size: u32, negative: bool, distance: u128) -> u64
    requires { size ≤ 64 }
    ensures { result ≡ word size (signed_by negative distance) }
{
    let whole = cut(distance, size);
    if negative {
        negated(size, whole)
    } else {
        whole
    }
}

/// The product of two signed words.
pub fn signed_product(m: u32, n: u32, a: u64, b: u64) -> u64
    requires least_m { 1 ≤ m }
    requires least_n { 1 ≤ n }
    requires size { m + n ≤ 64 }
    requires fits_a { a < 2 ^ m }
    requires fits_b { b < 2 ^ n }
    ensures { result ≡ word (m + n) (signed m a *ℤ signed n b) }
{
    let negative = is_negative(m, a) != is_negative(n, b);
    with_sign(
        m + n,
        negative,
        distance(m, a) as u128 * distance(n, b) as u128,
    )
}

/// The quotient of two words.
#[tactic(auto, using(crate::proofs::Modular::quotient_kept))]
pub fn quotient(m: u32, n: u32, a: u64, b: u64) -> Result<u64, Divide>
    requires { a < 2 ^ m }
    ensures divide { IsErr result ↔ (b ≡ 0) }
    ensures value { IfOk result (λ q. q ≡ (a / b) % 2 ^ m) }
{
    if b == 0 { Err(Divide) } else { Ok(a / b) }
}

/// What the quotient of two words leaves.
#[tactic(auto, using(crate::proofs::Modular::remainder_kept))]
pub fn remainder(m: u32, n: u32, a: u64, b: u64) -> Result<u64, Divide>
    requires { b < 2 ^ n }
    ensures divide { IsErr result ↔ (b ≡ 0) }
    ensures value { IfOk result (λ r. r ≡ word n (pos a -ℤ (pos b *ℤ pos (a / b)))) }
{
    if b == 0 { Err(Divide) } else { Ok(a % b) }
}

/// The quotient of two signed words, truncated toward zero.
pub fn signed_quotient(m: u32, n: u32, a: u64, b: u64) -> Result<u64, Divide>
    requires least_m { 1 ≤ m }
    requires least_n { 1 ≤ n }
    requires size_m { m ≤ 64 }
    requires size_n { n ≤ 64 }
    requires fits_a { a < 2 ^ m }
    requires fits_b { b < 2 ^ n }
    ensures divide { IsErr result ↔ (b ≡ 0) }
    ensures value { IfOk result (λ q. q ≡ word m (int_div (signed m a) (signed n b))) }
{
    if b == 0 {
        return Err(Divide);
    }
    let negative = is_negative(m, a) != is_negative(n, b);
    Ok(with_sign(m, negative, (distance(m, a) / distance(n, b)) as u128))
}

/// What that quotient leaves.
#[tactic(auto, using(crate::proofs::Modular::remainder_by_sign))]
pub fn signed_remainder(m: u32, n: u32, a: u64, b: u64) -> Result<u64, Divide>
    requires least_m { 1 ≤ m }
    requires least_n { 1 ≤ n }
    requires size_m { m ≤ 64 }
    requires size_n { n ≤ 64 }
    requires fits_a { a < 2 ^ m }
    requires fits_b { b < 2 ^ n }
    ensures divide { IsErr result ↔ (b ≡ 0) }
    ensures value { IfOk result (λ r. r ≡ word n (signed m a -ℤ (signed n b *ℤ int_div (signed m a) (signed n b)))) }
{
    if b == 0 {
        return Err(Divide);
    }
    Ok(with_sign(
        n,
        is_negative(m, a),
        (distance(m, a) % distance(n, b)) as u128,
    ))
}

/// The word shifted to lower places.
#[tactic(auto, using(crate::proofs::Modular::shifted_out_low))]
fn moved_right(a: u64, b: u64) -> u64
    ensures { result ≡ a / 2 ^ b }
{
    if b < 64 { a >> b } else { 0 }
}

/// The word shifted to lower places.
#[tactic(auto, using(crate::proofs::Modular::shift_kept))]
pub fn shifted_right(size: u32, a: u64, b: u64) -> u64
    requires { a < 2 ^ size }
    ensures { result ≡ a / 2 ^ b % 2 ^ size }
{
    moved_right(a, b)
}

/// The word shifted to higher places.
#[tactic(auto, using(crate::proofs::Modular::shifted_out_high))]
pub fn shifted_left(size: u32, a: u64, b: u64) -> u64
    requires { size ≤ 64 }
    ensures { result ≡ (a * 2 ^ b) % 2 ^ size }
{
    if b < size as u64 {
        cut((a as u128) << b, size)
    } else {
        0
    }
}

/// The signed word shifted to lower places, rounded down.
#[tactic(auto, using(crate::proofs::Modular::word_shifted, crate::proofs::Modular::low_shifted))]
pub fn signed_shifted_right(size: u32, a: u64, b: u64) -> u64
    requires least { 1 ≤ size }
    requires size { size ≤ 64 }
    requires fits { a < 2 ^ size }
    ensures { result ≡ word size (int_div_euclid (signed size a) (pos (2 ^ b))) }
{
    if is_negative(size, a) {
        complement(size, moved_right(complement(size, a), b))
    } else {
        moved_right(a, b)
    }
}

/// The bits moved round to higher places, at most once round.
#[tactic(auto, using(crate::proofs::Modular::rotated))]
fn moved_round(size: u32, a: u64, places: u32) -> u64
    requires size { size ≤ 64 }
    requires within { places ≤ size }
    ensures { result ≡ (a * 2 ^ places + a / 2 ^ (size - places)) % 2 ^ size }
{
    let wide = a as u128;
    cut((wide << places) + (wide >> (size - places)), size)
}

/// The bits moved round to higher places.
pub fn rotated_left(size: u32, a: u64, b: u64) -> u64
    requires least { 1 ≤ size }
    requires size { size ≤ 64 }
    ensures { result ≡ (a * 2 ^ (b % size) + a / 2 ^ (size - b % size)) % 2 ^ size }
{
    moved_round(size, a, (b % size as u64) as u32)
}

/// The bits moved round to lower places.
pub fn rotated_right(size: u32, a: u64, b: u64) -> u64
    requires least { 1 ≤ size }
    requires size { size ≤ 64 }
    ensures { result ≡ (a / 2 ^ (b % size) + a * 2 ^ (size - b % size)) % 2 ^ size }
{
    moved_round(size, a, size - (b % size as u64) as u32)
}

/// The bits that both words have.
#[tactic(auto, using(crate::proofs::Modular::both_kept))]
pub fn conjunction(size: u32, a: u64, b: u64) -> u64
    requires { a < 2 ^ size }
    ensures { result ≡ bit_and a b % 2 ^ size }
{
    a & b
}

/// The bits that one word has or both have.
#[tactic(auto, using(crate::proofs::Modular::either_kept))]
pub fn disjunction(size: u32, a: u64, b: u64) -> u64
    requires fits_a { a < 2 ^ size }
    requires fits_b { b < 2 ^ size }
    ensures { result ≡ bit_or a b % 2 ^ size }
{
    a | b
}

/// The bits that exactly one word has.
#[tactic(auto, using(crate::proofs::Modular::one_kept))]
pub fn exclusive_disjunction(size: u32, a: u64, b: u64) -> u64
    requires fits_a { a < 2 ^ size }
    requires fits_b { b < 2 ^ size }
    ensures { result ≡ bit_xor a b % 2 ^ size }
{
    a ^ b
}

/// The signed word a is below the signed word b.
pub fn is_signed_below(size: u32, a: u64, b: u64) -> bool
    requires least { 1 ≤ size }
    requires size { size ≤ 64 }
    requires fits_a { a < 2 ^ size }
    requires fits_b { b < 2 ^ size }
    ensures { result ≡ int_lt (signed size a) (signed size b) }
{
    let negative = is_negative(size, a);
    if negative == is_negative(size, b) {
        a < b
    } else {
        negative
    }
}

/// The signed word a is at most the signed word b.
pub fn is_signed_at_most(size: u32, a: u64, b: u64) -> bool
    requires least { 1 ≤ size }
    requires size { size ≤ 64 }
    requires fits_a { a < 2 ^ size }
    requires fits_b { b < 2 ^ size }
    ensures { result ≡ int_le (signed size a) (signed size b) }
{
    let negative = is_negative(size, a);
    if negative == is_negative(size, b) {
        a <= b
    } else {
        negative
    }
}

/// The signed word of size m as a word of size n.
#[tactic(auto, using(crate::proofs::Modular::word_extended, crate::proofs::Modular::word_kept, crate::proofs::Modular::powers_rise))]
pub fn sign_extended(m: u32, n: u32, a: u64) -> u64
    requires least { 1 ≤ m }
    requires size { n ≤ 64 }
    requires wider { m ≤ n }
    requires fits { a < 2 ^ m }
    ensures { result ≡ word n (signed m a) }
{
    if is_negative(m, a) {
        (a as u128 + (power(n) - power(m))) as u64
    } else {
        a
    }
}

/// The word with zeros above it.
#[tactic(auto, using(crate::proofs::Modular::low_kept))]
pub fn zero_extended(m: u32, n: u32, a: u64) -> u64
    requires wider { m ≤ n }
    requires fits { a < 2 ^ m }
    ensures { result ≡ a % 2 ^ n }
{
    a
}

/// The low bits of the word.
pub fn truncated(size: u32, a: u64) -> u64
    requires { size ≤ 64 }
    ensures { result ≡ a % 2 ^ size }
{
    cut(a as u128, size)
}

/// The bits from place low to place high.
pub fn field(low: u32, high: u32, a: u64) -> u64
    requires order { low ≤ high }
    requires size { high < 64 }
    ensures { result ≡ (a / 2 ^ low) % 2 ^ (high - low + 1) }
{
    cut(a as u128 >> low, high - low + 1)
}

/// The word a above the word b.
pub fn concatenated(m: u32, n: u32, a: u64, b: u64) -> u64
    requires size { m + n ≤ 64 }
    requires least { 1 ≤ m }
    ensures { result ≡ (a * 2 ^ n + b) % 2 ^ (m + n) }
{
    cut(((a as u128) << n) + b as u128, m + n)
}

/// The first word where the bit is 1, else the second.
#[tactic(auto, using(crate::proofs::Modular::mod_small))]
pub fn chosen(size: u32, test: u64, a: u64, b: u64) -> u64
    requires fits_a { a < 2 ^ size }
    requires fits_b { b < 2 ^ size }
    ensures { result ≡ word size (if test == 1 then pos a else pos b) }
{
    if test == 1 { a } else { b }
}

/// The lesser of two words.
#[tactic(auto, using(crate::proofs::Modular::lesser_kept))]
pub fn lesser(size: u32, a: u64, b: u64) -> u64
    requires fits_a { a < 2 ^ size }
    requires fits_b { b < 2 ^ size }
    ensures { result ≡ min a b % 2 ^ size }
{
    if a < b { a } else { b }
}

/// The greater of two words.
#[tactic(auto, using(crate::proofs::Modular::greater_kept))]
pub fn greater(size: u32, a: u64, b: u64) -> u64
    requires fits_a { a < 2 ^ size }
    requires fits_b { b < 2 ^ size }
    ensures { result ≡ max a b % 2 ^ size }
{
    if a < b { b } else { a }
}

/// The lesser of two signed words.
#[tactic(auto, using(crate::proofs::WordReadings::signed_lesser_is))]
pub fn signed_lesser(size: u32, a: u64, b: u64) -> u64
    requires least { 1 ≤ size }
    requires size { size ≤ 64 }
    requires fits_a { a < 2 ^ size }
    requires fits_b { b < 2 ^ size }
    ensures { result ≡ word size (int_min (signed size a) (signed size b)) }
{
    if is_signed_below(size, b, a) { b } else { a }
}

/// The greater of two signed words.
#[tactic(auto, using(crate::proofs::WordReadings::signed_greater_is))]
pub fn signed_greater(size: u32, a: u64, b: u64) -> u64
    requires least { 1 ≤ size }
    requires size { size ≤ 64 }
    requires fits_a { a < 2 ^ size }
    requires fits_b { b < 2 ^ size }
    ensures { result ≡ word size (int_max (signed size a) (signed size b)) }
{
    if is_signed_below(size, b, a) { a } else { b }
}

/// The operand at this place, or 0 after the last.
pub fn word_at(args: &[u64], place: usize) -> u64
    ensures { result ≡ slice_index args.now place }
{
    if place < args.len() { args[place] } else { 0 }
}
