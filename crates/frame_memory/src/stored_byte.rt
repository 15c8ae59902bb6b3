//! What a store leaves in a byte.

ghost use Rattle.std.specs.Prelude.{◌≡◌, ◌≤◌, ◌+◌, ◌*◌, IfSome};
ghost use Rattle.memory_rules.specs.AbstractSets.{abstract_sets, low_byte, has_pointer as has_pointer_of};
ghost use Rattle.memory_rules.specs.Frames.{byte_part as byte_part_of, new_byte as new_byte_of};
ghost use Rattle.memory_model.specs.HeldFrames.{byte_held};

use interval_congruence::Strided;
use memory_pages::Byte;
use pointer_domain::AVal;

/// This byte of each of the words, the lowest bits in byte 0.
fn byte_of(words: Strided, place: u32) -> Strided
    requires { 8 * place + 8 ≤ words.size }
    ensures value { result ≡ low_byte place words }
    ensures size { result.size ≡ 8 }
{
    let low = 8 * place;
    if words.is_one() {
        Strided::one_word(8, (words.word() >> low) % 256)
    } else {
        words.select(low, low + 7)
    }
}

/// This byte of the words, if there are words.
fn byte_part(words: Option<Strided>, place: u32) -> Option<Strided>
    requires { IfSome words (λ words. 8 * place + 8 ≤ words.size) }
    ensures value { result ≡ byte_part_of abstract_sets place words }
    ensures size { IfSome result (λ word. word.size ≡ 8) }
{
    match words {
        None => None,
        Some(words) => Some(byte_of(words, place)),
    }
}

/// Some pointer is among the values.
fn has_pointer(value: &AVal) -> bool
    ensures { result ≡ has_pointer_of value.now }
{
    match value.at().split_first() {
        None => false,
        Some(_) => true,
    }
}

/// The byte that a store of the value leaves at this place of its cell.
pub(crate) fn new_byte(value: &AVal, place: u32) -> Byte
    requires { IfSome value.now.words (λ words. 8 * place + 8 ≤ words.size) }
    ensures byte { result ≡ byte_held (new_byte_of abstract_sets value.now place) }
    ensures size { IfSome result.value (λ word. word.size ≡ 8) }
{
    Byte {
        value: byte_part(value.int(), place),
        u: false,
        p: has_pointer(value),
    }
}
