//! Slots in the cell of a weak store.

ghost use Rattle.std.specs.Prelude.{◌≡◌, ◌≤◌, ◌<◌, ◌+◌, ◌*◌, IfOk, OnOk, IfSome, length};
ghost use Rattle.memory_model.specs.HeldFrames.{frame_of};
ghost use Rattle.frame_memory.specs.Places.{IsMixedAt, mixed, mixed_slot};

use crate::joined::weak_byte;
use crate::slots::put;
use crate::stored_byte::new_byte;
use memory_pages::{FrameSlots, Held, Slot};
use pointer_domain::AVal;
use std::alloc::{AllocError, Global};

/// A copy of the slot, where each cell has `x` and the byte is joined with that of the value.
fn mixed_copy(alloc: Global, slot: &Slot, at: u32, value: &AVal) -> Result<Slot, AllocError>
    requires byte { IfSome slot.now.byte.value (λ word. word.size ≡ 8) }
    requires value { IfSome value.now.words (λ words. 8 * at + 8 ≤ words.size) }
    ensures { IfOk result (λ copy. copy ≡ mixed slot.now at value.now) }
{
    let (old, new) = (slot.byte(), new_byte(value, at));
    let mut copy = slot.marked_wider(alloc, 0)?;
    copy.set_byte(alloc, &weak_byte(&old, &new))?;
    Ok(copy)
}

/// The same, and at the first place the cell.
fn mixed_with(
    alloc: Global,
    slot: &Slot,
    at: u32,
    size: u32,
    cell: &Held,
    value: &AVal,
) -> Result<Slot, AllocError>
    requires byte { IfSome slot.now.byte.value (λ word. word.size ≡ 8) }
    requires value { IfSome value.now.words (λ words. 8 * at + 8 ≤ words.size) }
    ensures { IfOk result (λ copy. copy ≡ mixed_slot slot.now at size cell.now value.now) }
{
    let mut copy = mixed_copy(alloc, slot, at, value)?;
    if at == 0 {
        copy.keep(size, cell.copy(alloc)?)?;
    }
    Ok(copy)
}

/// Changes the slot at the place, which is this one of the cell.
pub(crate) fn mix_at(
    alloc: Global,
    slots: &mut FrameSlots,
    place: usize,
    at: u32,
    size: u32,
    cell: &Held,
    value: &AVal,
) -> Result<(), AllocError>
    requires place { place < length slots.old }
    requires byte { IfSome ((frame_of slots.old).bytes place).value (λ word. word.size ≡ 8) }
    requires value { IfSome value.now.words (λ words. 8 * at + 8 ≤ words.size) }
    ensures { OnOk result (IsMixedAt slots.old slots.new place at size cell.now value.now) }
{
    let Some(slot) = slots.slot(place) else {
        return Ok(());
    };
    let mixed = mixed_with(alloc, slot, at, size, cell, value)?;
    put(slots, place, mixed)
}
