//! Slots that hold already what a store leaves.

ghost use Rattle.std.specs.Prelude.{◌≡◌, ◌≢◌, ℕ, IsTrue, true, false, None, Some};
ghost use Rattle.memory_pages.specs.Slots.{cell_of};
ghost use Rattle.memory_model.specs.HeldFrames.{is_cell_size};
ghost use Rattle.frame_memory.specs.Places.{HasLone, IsStored, known};

use crate::pins::is_known;
use memory_pages::{Byte, FrameSlots, Slot};
use pointer_domain::AVal;

/// True only where the cell of this size is known to hold the value.
fn is_kept(slot: &Slot, size: u32, value: &AVal) -> bool
    requires { is_cell_size size ≡ true }
    ensures { IsTrue result → cell_of slot.now size ≡ Some (known value.now) }
{
    match slot.cell(size) {
        None => false,
        Some(cell) => is_known(cell, value),
    }
}

/// Some cell of another size begins at the slot.
fn has_other(slot: &Slot, size: u32) -> bool
    ensures { result ≡ false → (width : ℕ) → is_cell_size width ≡ true → width ≢ size → cell_of slot.now width ≡ None }
{
    for bytes in 1..9 {
        if 8 * bytes != size && slot.cell(8 * bytes).is_some() {
            return true;
        }
    }
    false
}

/// True only where the slot has this byte, and the one cell that begins there is known to hold the value.
fn has_lone(slot: &Slot, size: u32, value: &AVal, byte: &Byte) -> bool
    requires { is_cell_size size ≡ true }
    ensures { IsTrue result → HasLone slot.now size value.now byte.now }
{
    slot.has_byte(byte) && is_kept(slot, size, value) && !has_other(slot, size)
}

/// True only where the slot at the place has this byte, and the one cell that begins there is known to hold the value.
pub(crate) fn is_stored(
    slots: &FrameSlots,
    place: u32,
    size: u32,
    value: &AVal,
    byte: &Byte,
) -> bool
    requires { is_cell_size size ≡ true }
    ensures { IsTrue result → IsStored slots.now place size value.now byte.now }
{
    match slots.slot(place as usize) {
        None => false,
        Some(slot) => has_lone(slot, size, value, byte),
    }
}
