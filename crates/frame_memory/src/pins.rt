//! A pin.

ghost use Rattle.std.specs.Prelude.{◌≡◌, ◌≤◌, ◌+◌, ◌/◌, true, Some, IsTrue, OnOk, IfOk, length};
ghost use Rattle.pointer_rules.specs.AbstractValues.{Words, alone};
ghost use Rattle.memory_rules.specs.AbstractSets.{abstract_sets};
ghost use Rattle.memory_rules.specs.Frames.{pinned};
ghost use Rattle.memory_pages.specs.Slots.{with_cell};
ghost use Rattle.memory_model.specs.HeldFrames.{frame_of, is_cell_size};
ghost use Rattle.frame_memory.specs.Places.{AreCanonical, known, known_seen};

use crate::cell::kept_cell;
use crate::slots::put;
use crate::stored_cell::known_cell;
use interval_congruence::Strided;
use memory_pages::{FrameSlots, KeptCell, Slot};
use pointer_domain::AVal;
use std::alloc::{AllocError, Global};

/// A copy of the slot, where the cell of this size is known to hold the value.
fn pinned_slot(alloc: Global, slot: &Slot, size: u32, value: &AVal) -> Result<Slot, AllocError>
    ensures { IfOk result (λ copy. copy ≡ with_cell slot.now size (known value.now)) }
{
    let mut copy = slot.copy(alloc)?;
    copy.keep(size, known_cell(alloc, value)?)?;
    Ok(copy)
}

/// The cell is known to hold the value.
pub(crate) fn is_known(cell: &KeptCell, value: &AVal) -> bool
    ensures { IsTrue result → cell.now.cell ≡ known value.now }
{
    match cell.value() {
        None => false,
        Some(own) => !cell.u() && !cell.x() && own.is_same(value),
    }
}

/// The cell is kept, and is known to hold the value.
fn is_pinned(slots: &FrameSlots, offset: u32, size: u32, value: &AVal) -> bool
    requires size { is_cell_size size ≡ true }
    ensures { IsTrue result → (frame_of slots.now).cells offset size ≡ Some (known_seen value.now) }
{
    match kept_cell(slots, offset, size) {
        None => false,
        Some(cell) => is_known(cell, value),
    }
}

/// Keeps a cell with these words, which it is known to hold. Bytes and other cells stay.
///
/// After want of memory the slots are given up.
pub fn pin(
    alloc: Global,
    slots: &mut FrameSlots,
    offset: u32,
    size: u32,
    words: Strided,
) -> Result<(), AllocError>
    requires size { is_cell_size size ≡ true }
    requires fits { offset + size / 8 ≤ length slots.old }
    ensures pinned { OnOk result
        (frame_of slots.new ≡ pinned abstract_sets (frame_of slots.old) offset size (alone (Words words))) }
    ensures length { OnOk result (length slots.new ≡ length slots.old) }
    ensures canonical { OnOk result (AreCanonical slots.old → AreCanonical slots.new) }
{
    let value = AVal::word(alloc, words);
    if is_pinned(slots, offset, size, &value) {
        return Ok(());
    }
    let Some(slot) = slots.slot(offset as usize) else {
        return Ok(());
    };
    let changed = pinned_slot(alloc, slot, size, &value)?;
    put(slots, offset as usize, changed)
}
