//! Loads computed from the events of a run, byte by byte.

ghost use Rattle.std.specs.Prelude.{◌≡◌, ◌*◌, ◌+◌, ◌^◌, ◌<◌, ◌≤◌, map, option_map};
ghost use Rattle.std.specs.List.{list_any, list_all};
ghost use Rattle.alf_ops.specs.Values.{bits_of};
ghost use Rattle.alf_ops.specs.Histories.{is_running, is_active, is_owner, is_byte_of, left_by, origin, offsets};
ghost use Rattle.alf_ops.specs.Histories.{is_empty, is_from, of_pointer, byte_of, word_of, cell_in, load};

use crate::history::{FrameShape, RunEvent, RunFault, Value};
use crate::outcomes::{bits, points};

/// The store that a byte comes from.
#[derive(Clone, Copy)]
struct Stored {
    offset: u32,
    size: u32,
    value: Value,
}

/// What the bytes of a cell come from.
#[derive(Clone, Copy)]
struct Reading {
    /// Some byte has no store.
    empty: bool,
    /// All bytes are of stores of this cell.
    whole: bool,
    /// Some byte is of a pointer.
    pointer: bool,
    /// The word of the bytes.
    word: u64,
}

/// The newest Enter or Leave of the function is an Enter.
fn runs(history: &[RunEvent], function: u32) -> bool
    ensures { result ≡ is_running history.now function }
{
    let mut rest = history;
    while let Some((event, others)) = rest.split_first() {
        match *event {
            RunEvent::Enter(entered) if entered == function => return true,
            RunEvent::Leave(left) if left == function => return false,
            _ => rest = others,
        }
    }
    false
}

/// The frame of this owner is active.
fn is_alive(history: &[RunEvent], owner: Option<u32>) -> bool
    ensures { result ≡ is_active owner history.now }
{
    match owner {
        None => true,
        Some(function) => runs(history, function),
    }
}

/// The frame is of this function.
fn belongs_to(owner: Option<u32>, function: u32) -> bool
    ensures { result ≡ is_owner owner function }
{
    match owner {
        None => false,
        Some(owner) => owner == function,
    }
}

/// The cell covers the byte.
fn covers(offset: u32, size: u32, byte: u64) -> bool
    ensures { result ≡ is_byte_of offset size byte }
{
    offset as u64 <= byte && byte < offset as u64 + (size / 8) as u64
}

/// The store that a byte of a frame comes from.
fn source(history: &[RunEvent], owner: Option<u32>, frame: u32, byte: u64) -> Option<Stored>
    ensures { origin owner frame history.now byte
        ≡ option_map (λ from. left_by from.offset from.size from.value byte) result }
{
    let mut rest = history;
    while let Some((event, others)) = rest.split_first() {
        match *event {
            RunEvent::Enter(entered) if belongs_to(owner, entered) => return None,
            RunEvent::Store {
                frame: other,
                offset,
                size,
                value,
            } if other == frame && covers(offset, size, byte) => {
                return Some(Stored {
                    offset,
                    size,
                    value,
                });
            }
            _ => rest = others,
        }
    }
    None
}

/// Byte number place of a word or an offset.
#[tactic(auto, using(crate::proofs::WordByteLemmas::byte_far))]
fn byte_in(value: Value, place: u64) -> u64
    ensures small { result < 256 }
    ensures bits { result ≡ byte_of place (bits_of value) }
{
    if place < 8 {
        (bits(value) >> (8 * place)) % 256
    } else {
        0
    }
}

/// What the bytes of a cell come from, from one byte of it on.
#[tactic(auto, using(crate::specs::SpanLaws::offsets_step, crate::specs::WordByteLaws::wider, crate::specs::WordByteLaws::within_word))]
fn read(
    history: &[RunEvent],
    owner: Option<u32>,
    frame: u32,
    offset: u32,
    size: u32,
    at: u64,
    count: u32,
) -> Reading
    requires few { count ≤ 8 }
    requires near { at + count < 2 ^ 40 }
    ensures empty { result.empty ≡ list_any is_empty (map (origin owner frame history.now) (offsets at count)) }
    ensures whole { result.whole
        ≡ list_all (is_from offset size) (map (origin owner frame history.now) (offsets at count)) }
    ensures pointer { result.pointer ≡ list_any of_pointer (map (origin owner frame history.now) (offsets at count)) }
    ensures word { result.word ≡ word_of (map (origin owner frame history.now) (offsets at count)) }
    ensures small { result.word < 2 ^ (8 * count) }
{
    if count == 0 {
        return Reading {
            empty: false,
            whole: true,
            pointer: false,
            word: 0,
        };
    }
    let rest = read(history, owner, frame, offset, size, at + 1, count - 1);
    match source(history, owner, frame, at) {
        None => Reading {
            empty: true,
            whole: false,
            pointer: rest.pointer,
            word: rest.word * 256,
        },
        Some(from) => {
            let is_of_cell = from.offset == offset && from.size == size;
            let low = byte_in(from.value, at.saturating_sub(from.offset as u64));
            Reading {
                empty: rest.empty,
                whole: is_of_cell && rest.whole,
                pointer: points(from.value) || rest.pointer,
                word: rest.word * 256 + low,
            }
        }
    }
}

/// What a cell of a frame gives.
fn cell(
    history: &[RunEvent],
    owner: Option<u32>,
    frame: u32,
    offset: u32,
    size: u32,
) -> Result<Value, RunFault>
    requires some { 8 ≤ size }
    requires few { size ≤ 64 }
    ensures { result ≡ cell_in (origin owner frame history.now) offset size }
{
    let reading = read(history, owner, frame, offset, size, offset as u64, size / 8);
    if reading.empty {
        return Err(RunFault::Uninit);
    }
    if reading.whole {
        return match source(history, owner, frame, offset as u64) {
            None => Err(RunFault::Uninit),
            Some(from) => Ok(from.value),
        };
    }
    if reading.pointer {
        return Err(RunFault::Mixed);
    }
    Ok(Value::Int {
        size,
        bits: reading.word,
    })
}

/// What a load gives after these events, of which the newest stands first. The size is 8 to 64.
///
/// It goes through all events for each byte, so it serves to try the meaning on examples; a machine
/// keeps bytes. Takes no memory.
pub fn load_after(
    frames: &[FrameShape],
    history: &[RunEvent],
    place: Value,
    size: u32,
) -> Result<Value, RunFault>
    requires some { 8 ≤ size }
    requires few { size ≤ 64 }
    ensures { result ≡ load frames.now history.now place size }
{
    let Value::Ptr { frame, offset } = place else {
        return Err(RunFault::Kind);
    };
    let Some(row) = frames.get(frame as usize) else {
        return Err(RunFault::Dead);
    };
    if !is_alive(history, row.owner) {
        return Err(RunFault::Dead);
    }
    if offset as u64 * 8 + size as u64 > row.bits as u64 {
        return Err(RunFault::Bounds);
    }
    cell(history, row.owner, frame, offset, size)
}
