//! The bytes of one frame.

ghost use Rattle.std.specs.Prelude.{◌≡◌, ◌+◌, ◌-◌, ◌*◌, ◌/◌, ◌^◌, ◌<◌, ◌≤◌, map, slice_set};
ghost use Rattle.std.specs.List.{list_any};
ghost use Rattle.alf_ops.specs.Histories.{offsets};
ghost use Rattle.alf_values.specs.Contents.{part, is_blank, of_pointer, are_parts, pointer_in, word_held, cell_held};
ghost use Rattle.alf_values.specs.Slots.{held, written};

use crate::bytes::Content;
use alf_ops::{RunFault, Value};

/// What a byte holds, while the mark is that of its frame.
#[derive(Clone, Copy)]
pub struct Slot {
    pub mark: u64,
    pub content: Content,
}

/// What the bytes of a cell hold.
#[derive(Clone, Copy)]
struct Reading {
    /// Some byte holds nothing.
    blank: bool,
    /// The bytes are the bytes of pointers, in their order.
    parts: bool,
    /// Some byte is one of a pointer.
    pointer: bool,
    /// The word of the bytes.
    word: u64,
}

/// What byte number `place` of a value holds.
fn part_of(value: Value, place: u32) -> Content
    requires { place < 8 }
    ensures { result ≡ part value place }
{
    match value {
        Value::Int { bits, .. } => Content::Word(((bits >> (8 * place)) % 256) as u8),
        Value::Ptr { frame, offset } => Content::Pointer {
            frame,
            offset,
            place: place as u8,
        },
    }
}

/// What a byte of the frame holds.
fn live(slots: &[Slot], mark: u64, byte: usize) -> Option<Content>
    ensures { result ≡ held slots.now mark byte }
{
    match slots.get(byte) {
        None => None,
        Some(slot) => {
            if slot.mark == mark {
                Some(slot.content)
            } else {
                None
            }
        }
    }
}

/// A word of so many bytes: a word of one byte less, above a byte.
fn above(word: u64, low: u8, count: u32) -> u64
    requires some { 0 < count }
    requires few { count ≤ 8 }
    requires small { word < 2 ^ (8 * (count - 1)) }
    ensures word { result ≡ word * 256 + low }
    ensures small { result < 2 ^ (8 * count) }
{
    word * 256 + low as u64
}

/// What the bytes of a cell hold, from its byte number `place` on.
#[tactic(auto, using(alf_ops::specs::SpanLaws::offsets_step))]
fn read(slots: &[Slot], mark: u64, byte: usize, place: u32, count: u32) -> Reading
    requires few { place + count ≤ 8 }
    requires near { byte + count < 2 ^ 40 }
    ensures blank { result.blank ≡ list_any is_blank (map (held slots.now mark) (offsets byte count)) }
    ensures parts { result.parts ≡ are_parts place (map (held slots.now mark) (offsets byte count)) }
    ensures pointer { result.pointer ≡ list_any of_pointer (map (held slots.now mark) (offsets byte count)) }
    ensures word { result.word ≡ word_held (map (held slots.now mark) (offsets byte count)) }
    ensures small { result.word < 2 ^ (8 * count) }
{
    if count == 0 {
        return Reading {
            blank: false,
            parts: true,
            pointer: false,
            word: 0,
        };
    }
    let rest = read(slots, mark, byte + 1, place + 1, count - 1);
    match live(slots, mark, byte) {
        None => Reading {
            blank: true,
            parts: false,
            pointer: rest.pointer,
            word: above(rest.word, 0, count),
        },
        Some(Content::Word(low)) => Reading {
            blank: rest.blank,
            parts: false,
            pointer: rest.pointer,
            word: above(rest.word, low, count),
        },
        Some(Content::Pointer { place: own, .. }) => Reading {
            blank: rest.blank,
            parts: own as u32 == place && rest.parts,
            pointer: true,
            word: above(rest.word, 0, count),
        },
    }
}

/// The pointer that a byte is one of.
fn pointer_at(slots: &[Slot], mark: u64, byte: usize) -> Result<Value, RunFault>
    ensures { result ≡ pointer_in (held slots.now mark byte) }
{
    match live(slots, mark, byte) {
        Some(Content::Pointer { frame, offset, .. }) => Ok(Value::Ptr { frame, offset }),
        Some(Content::Word(_)) => Err(RunFault::Uninit),
        None => Err(RunFault::Uninit),
    }
}

/// What a cell of the frame gives.
pub(crate) fn load_cell(
    slots: &[Slot],
    mark: u64,
    offset: u32,
    size: u32,
) -> Result<Value, RunFault>
    requires some { 8 ≤ size }
    requires few { size ≤ 64 }
    ensures { result ≡ cell_held (held slots.now mark) offset size }
{
    let reading = read(slots, mark, offset as usize, 0, size / 8);
    if reading.blank {
        return Err(RunFault::Uninit);
    }
    if size == 32 && reading.parts {
        return pointer_at(slots, mark, offset as usize);
    }
    if reading.pointer {
        return Err(RunFault::Mixed);
    }
    Ok(Value::Int {
        size,
        bits: reading.word,
    })
}

/// Sets a slot, if there is one.
fn set_slot(slots: &mut [Slot], byte: usize, slot: Slot)
    ensures { slots.new ≡ slice_set slots.old byte slot }
{
    if byte < slots.len() {
        slots[byte] = slot;
    }
}

/// Sets the slots of so many bytes of a value, from its byte number `place` on.
#[tactic(auto, using(crate::proofs::Writes::written_step))]
pub(crate) fn write(
    slots: &mut [Slot],
    mark: u64,
    value: Value,
    byte: usize,
    place: u32,
    count: u32,
)
    requires few { place + count ≤ 8 }
    requires near { byte + count < 2 ^ 40 }
    ensures { slots.new ≡ written mark value slots.old byte place count }
{
    if count == 0 {
        return;
    }
    let content = part_of(value, place);
    set_slot(slots, byte, Slot { mark, content });
    write(slots, mark, value, byte + 1, place + 1, count - 1);
}
