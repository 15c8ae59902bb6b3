//! A store to the one possible cell.

ghost use Rattle.std.specs.Prelude.{◌≡◌, ◌≤◌, ◌<◌, ◌+◌, ◌-◌, ◌*◌, ◌/◌, true, IfOk, OnOk, length};
ghost use Rattle.pointer_rules.specs.Covering.{IsValue};
ghost use Rattle.memory_rules.specs.AbstractSets.{abstract_sets};
ghost use Rattle.memory_rules.specs.Frames.{new_byte as new_byte_of, strong};
ghost use Rattle.memory_model.specs.HeldFrames.{byte_held, frame_of, is_cell_size};
ghost use Rattle.frame_memory.specs.Places.{AreCanonical, Becomes, at_place, lone_slot};

use crate::dropped::drop_wider;
use crate::overlapping::first_near;
use crate::slots::put_bare;
use crate::stored::is_stored;
use crate::stored_byte::new_byte;
use crate::stored_cell::known_cell;
use memory_pages::{Byte, FrameSlots, Slot};
use pointer_domain::AVal;
use std::alloc::{AllocError, Global};

/// The slot at the first place of the cell: the lowest byte of the value, and the cell.
fn first_slot(alloc: Global, size: u32, value: &AVal, byte: &Byte) -> Result<Slot, AllocError>
    requires { byte.now ≡ byte_held (new_byte_of abstract_sets value.now 0) }
    ensures { IfOk result (λ slot. slot ≡ lone_slot 0 size value.now) }
{
    let mut slot = Slot::bare(alloc, byte)?;
    slot.keep(size, known_cell(alloc, value)?)?;
    Ok(slot)
}

/// Changes what begins at the first place of the cell.
fn store_first(
    alloc: Global,
    slots: &mut FrameSlots,
    offset: u32,
    size: u32,
    value: &AVal,
) -> Result<(), AllocError>
    requires size { is_cell_size size ≡ true }
    requires fits { offset + size / 8 ≤ length slots.old }
    requires value { IsValue size value.now }
    ensures { OnOk result
        (Becomes slots.old slots.new
        (at_place offset (strong abstract_sets (frame_of slots.old) offset size value.now) (frame_of slots.old))) }
{
    let byte = new_byte(value, 0);
    if is_stored(slots, offset, size, value, &byte) {
        return Ok(());
    }
    let slot = first_slot(alloc, size, value, &byte)?;
    slots.put(offset as usize, slot)
}

/// Changes what begins at a place of the cell after the first.
fn store_byte(
    alloc: Global,
    slots: &mut FrameSlots,
    offset: u32,
    size: u32,
    value: &AVal,
    place: usize,
) -> Result<(), AllocError>
    requires size { is_cell_size size ≡ true }
    requires after { offset < place }
    requires inside { place < offset + size / 8 }
    requires fits { offset + size / 8 ≤ length slots.old }
    requires value { IsValue size value.now }
    ensures { OnOk result
        (Becomes slots.old slots.new
        (at_place place (strong abstract_sets (frame_of slots.old) offset size value.now) (frame_of slots.old))) }
{
    let byte = new_byte(value, (place - offset as usize) as u32);
    put_bare(alloc, slots, place, &byte)
}

/// Changes what begins at the place.
fn store_at(
    alloc: Global,
    slots: &mut FrameSlots,
    offset: u32,
    size: u32,
    value: &AVal,
    place: usize,
) -> Result<(), AllocError>
    requires size { is_cell_size size ≡ true }
    requires near { offset ≤ place + 7 }
    requires inside { place < offset + size / 8 }
    requires fits { offset + size / 8 ≤ length slots.old }
    requires value { IsValue size value.now }
    ensures { OnOk result
        (Becomes slots.old slots.new
        (at_place place (strong abstract_sets (frame_of slots.old) offset size value.now) (frame_of slots.old))) }
{
    let start = offset as usize;
    if place < start {
        return drop_wider(alloc, slots, place, 8 * (start - place) as u32);
    }
    if place == start {
        return store_first(alloc, slots, offset, size, value);
    }
    store_byte(alloc, slots, offset, size, value, place)
}

/// Stores a value in the one possible cell.
///
/// Cells that share a byte with it are dropped. After want of memory the slots are given up.
pub fn store_strongly(
    alloc: Global,
    slots: &mut FrameSlots,
    offset: u32,
    size: u32,
    value: &AVal,
) -> Result<(), AllocError>
    requires size { is_cell_size size ≡ true }
    requires fits { offset + size / 8 ≤ length slots.old }
    requires value { IsValue size value.now }
    ensures stored { OnOk result
        (frame_of slots.new ≡ strong abstract_sets (frame_of slots.old) offset size value.now) }
    ensures length { OnOk result (length slots.new ≡ length slots.old) }
    ensures canonical { OnOk result (AreCanonical slots.old → AreCanonical slots.new) }
{
    for place in first_near(offset)..offset as usize + (size / 8) as usize {
        store_at(alloc, slots, offset, size, value, place)?;
    }
    Ok(())
}
