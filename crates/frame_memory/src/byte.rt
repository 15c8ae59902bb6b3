//! The bytes of a frame.

ghost use Rattle.std.specs.Prelude.{◌≡◌, ◌+◌, ◌<◌, ◌^◌, map};
ghost use Rattle.std.specs.List.{list_any, list_all};
ghost use Rattle.alf_ops.specs.Histories.{offsets};
ghost use Rattle.memory_rules.specs.Frames.{is_stored as is_stored_byte};
ghost use Rattle.memory_model.specs.HeldFrames.{byte_seen, frame_of};
ghost use Rattle.memory_model.specs.HeldMemories.{held_no_byte};

use memory_pages::{Byte, FrameSlots};

/// A byte without a store.
fn no_byte() -> Byte
    ensures { result ≡ held_no_byte }
{
    Byte {
        value: None,
        u: true,
        p: false,
    }
}

/// The byte at a place. Past the slots of the frame it is a byte without a store.
pub fn byte_of(slots: &FrameSlots, place: usize) -> Byte
    ensures { byte_seen result ≡ (frame_of slots.now).bytes place }
{
    match slots.slot(place) {
        None => no_byte(),
        Some(slot) => slot.byte(),
    }
}

/// The byte has a value or `p`.
fn is_stored(byte: &Byte) -> bool
    ensures { result ≡ is_stored_byte (byte_seen byte.now) }
{
    byte.value.is_some() || byte.p
}

/// One of so many bytes from a place on has `u`.
pub(crate) fn some_without_store(slots: &FrameSlots, place: usize, count: u32) -> bool
    requires { place + count < 2 ^ 64 }
    ensures { result ≡ list_any (λ byte. byte.u) (map (frame_of slots.now).bytes (offsets place count)) }
{
    count != 0 && (byte_of(slots, place).u || some_without_store(slots, place + 1, count - 1))
}

/// Each of so many bytes from a place on has a value or `p`.
pub(crate) fn all_stored(slots: &FrameSlots, place: usize, count: u32) -> bool
    requires { place + count < 2 ^ 64 }
    ensures { result ≡ list_all is_stored_byte (map (frame_of slots.now).bytes (offsets place count)) }
{
    count == 0 || (is_stored(&byte_of(slots, place)) && all_stored(slots, place + 1, count - 1))
}
