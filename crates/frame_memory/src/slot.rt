//! Slots joined.

ghost use Rattle.std.specs.Prelude.{◌≡◌, true, IfOk, OnOk};
ghost use Rattle.memory_rules.specs.AbstractSets.{abstract_sets};
ghost use Rattle.memory_rules.specs.Covers.{FrameSized};
ghost use Rattle.memory_model.specs.HeldFrames.{byte_held, cell_held, frame_of, is_cell_size};
ghost use Rattle.memory_model.specs.HeldMemories.{joined_slot};
ghost use Rattle.frame_memory.specs.FrameJoins.{join_of, with_held};

use crate::byte::byte_of;
use crate::joined_byte::joined_byte;
use crate::joined_cell::joined_cell;
use memory_pages::{Byte, FrameSlots, Held, Slot};
use std::alloc::{AllocError, Global};

/// The byte of the join at this place.
fn byte_at(a: &FrameSlots, b: &FrameSlots, place: u32) -> Byte
    requires first { FrameSized abstract_sets (frame_of a.now) }
    requires second { FrameSized abstract_sets (frame_of b.now) }
    ensures { result ≡ byte_held ((join_of a.now b.now).bytes place) }
{
    joined_byte(byte_of(a, place as usize), byte_of(b, place as usize))
}

/// Keeps the cell, if there is one. After want of memory the slot is given up.
fn keep_held(slot: &mut Slot, size: u32, cell: Option<Held>) -> Result<(), AllocError>
    ensures { OnOk result (slot.new ≡ with_held slot.old size cell) }
{
    match cell {
        None => Ok(()),
        Some(cell) => slot.keep(size, cell),
    }
}

/// Keeps the cell of the join, where one of the sides keeps it. After want of memory the slot is given up.
fn keep_joined(
    alloc: Global,
    a: &FrameSlots,
    b: &FrameSlots,
    place: u32,
    size: u32,
    slot: &mut Slot,
) -> Result<(), AllocError>
    requires size { is_cell_size size ≡ true }
    requires first { FrameSized abstract_sets (frame_of a.now) }
    requires second { FrameSized abstract_sets (frame_of b.now) }
    ensures { OnOk result (slot.new ≡ with_held slot.old size (cell_held ((join_of a.now b.now).cells place size))) }
{
    let cell = joined_cell(alloc, a, b, place, size)?;
    keep_held(slot, size, cell)
}

/// The slot of the join at this place.
pub(crate) fn slot_joined(
    alloc: Global,
    a: &FrameSlots,
    b: &FrameSlots,
    place: u32,
) -> Result<Slot, AllocError>
    requires first { FrameSized abstract_sets (frame_of a.now) }
    requires second { FrameSized abstract_sets (frame_of b.now) }
    ensures { IfOk result (λ slot. slot ≡ joined_slot a.now b.now place) }
{
    let byte = byte_at(a, b, place);
    let mut slot = Slot::bare(alloc, &byte)?;
    for count in 1..9 {
        keep_joined(alloc, a, b, place, 8 * count, &mut slot)?;
    }
    Ok(slot)
}
