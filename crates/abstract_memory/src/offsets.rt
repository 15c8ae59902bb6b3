//! The offsets of a pointer, one after the other.

ghost use Rattle.std.specs.Prelude.{◌≡◌, ◌≤◌, ◌<◌, ◌^◌, pos, neg_ℤ, ◌≤ℤ◌};
ghost use Rattle.std.specs.Option.{option_map};
ghost use Rattle.progressions.specs.Progressions.{IsProgression};
ghost use Rattle.progressions.specs.Limits.{IsSmall};
ghost use Rattle.progressions.specs.Parts.{from_least};
ghost use Rattle.strided_rules.specs.Strides.{Covers};
ghost use Rattle.abstract_memory.specs.NextOffsets.{IsTurned, Finds, lesser_of, first_past as first_past_of};

use interval_congruence::Strided;
use progressions::Progression;
use whole_numbers::Whole;

/// The least number from this one on.
fn first_from(numbers: &Progression, least: Whole) -> Option<Whole>
    requires progression { IsProgression numbers.now }
    requires small { IsSmall numbers.now }
    ensures { result ≡ option_map (λ p. p.lo) (from_least least numbers.now) }
{
    match numbers.from_least(least) {
        None => None,
        Some(part) => Some(part.lo),
    }
}

/// The least offset from this one on that is one of the numbers, with `turn` added.
fn offset_from(numbers: &Progression, from: u32, turn: Whole) -> Option<u32>
    requires progression { IsProgression numbers.now }
    requires small { IsSmall numbers.now }
    requires low { neg_ℤ (pos (2 ^ 32)) ≤ℤ turn }
    requires high { turn ≤ℤ pos (2 ^ 32) }
    ensures { Finds (IsTurned numbers.now turn) from result }
{
    match first_from(numbers, Whole::of_word(from as u64) - turn) {
        None => None,
        Some(number) => {
            let offset = number + turn;
            if offset.below(Whole::power_of_two(32)) {
                Some(offset.word() as u32)
            } else {
                None
            }
        }
    }
}

/// The lesser of those that are there.
fn lesser(a: Option<u32>, b: Option<u32>) -> Option<u32>
    ensures { result ≡ lesser_of a b }
{
    match (a, b) {
        (None, b) => b,
        (Some(a), None) => Some(a),
        (Some(a), Some(b)) => { if a <= b { Some(a) } else { Some(b) } }
    }
}

/// The least offset from this one on.
pub(crate) fn next_offset(members: Strided, from: u32) -> Option<u32>
    requires { members.size ≡ 32 }
    ensures { Finds (Covers members) from result }
{
    let numbers = members.numbers();
    let turn = Whole::power_of_two(32);
    let here = offset_from(&numbers, from, Whole::of(0));
    let raised = offset_from(&numbers, from, turn);
    let lowered = offset_from(&numbers, from, -turn);
    lesser(lesser(here, raised), lowered)
}

/// The first offset at which a cell does not fit the frame.
pub(crate) fn first_past(bits: u32, size: u32) -> u32
    requires { 8 ≤ size }
    ensures { result ≡ first_past_of bits size }
{
    if bits < size {
        0
    } else {
        (bits - size) / 8 + 1
    }
}
