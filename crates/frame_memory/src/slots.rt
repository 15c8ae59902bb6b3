//! Slots put where they change something.

ghost use Rattle.std.specs.Prelude.{◌≡◌, ◌<◌, IsTrue, OnOk, Some, length, slice_get, slice_set};
ghost use Rattle.memory_pages.specs.Slots.{bare};

use memory_pages::{Byte, FrameSlots, Slot};
use std::alloc::{AllocError, Global};

/// True only where this slot is at the place.
fn is_there(slots: &FrameSlots, place: usize, slot: &Slot) -> bool
    ensures { IsTrue result → slice_get slots.now place ≡ Some slot.now }
{
    match slots.slot(place) {
        None => false,
        Some(old) => old.is_same(slot),
    }
}

/// Puts a slot, unless it is there. After want of memory the slots are given up.
pub(crate) fn put(slots: &mut FrameSlots, place: usize, slot: Slot) -> Result<(), AllocError>
    requires { place < length slots.old }
    ensures { OnOk result (slots.new ≡ slice_set slots.old place slot) }
{
    if is_there(slots, place, &slot) {
        return Ok(());
    }
    slots.put(place, slot)
}

/// True only where the slot at the place has this byte, and no cell begins there.
fn is_bare(slots: &FrameSlots, place: usize, byte: &Byte) -> bool
    ensures { IsTrue result → slice_get slots.now place ≡ Some (bare byte.now) }
{
    match slots.slot(place) {
        None => false,
        Some(old) => old.is_bare(byte),
    }
}

/// Puts a slot with this byte, at which no cell begins, unless it is there. After want of memory the slots are given
/// up.
pub(crate) fn put_bare(
    alloc: Global,
    slots: &mut FrameSlots,
    place: usize,
    byte: &Byte,
) -> Result<(), AllocError>
    requires { place < length slots.old }
    ensures { OnOk result (slots.new ≡ slice_set slots.old place (bare byte.now)) }
{
    if is_bare(slots, place, byte) {
        return Ok(());
    }
    slots.put(place, Slot::bare(alloc, byte)?)
}
