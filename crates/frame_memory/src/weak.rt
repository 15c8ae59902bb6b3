//! A store to one of several possible cells.

ghost use Rattle.std.specs.Prelude.{◌≡◌, ◌≤◌, ◌<◌, ◌+◌, ◌/◌, true, OnOk, IfSome, length};
ghost use Rattle.pointer_rules.specs.Covering.{IsValue};
ghost use Rattle.memory_rules.specs.AbstractSets.{abstract_sets};
ghost use Rattle.memory_rules.specs.Covers.{FrameSized};
ghost use Rattle.memory_rules.specs.Frames.{weak};
ghost use Rattle.memory_model.specs.HeldFrames.{frame_of, is_cell_size};
ghost use Rattle.frame_memory.specs.StandingCells.{seen};
ghost use Rattle.frame_memory.specs.Places.{AreCanonical, Becomes, at_place, weakly};

use crate::cell::standing_cell;
use crate::joined::weak_cell;
use crate::marked::mark_wider;
use crate::mixed::mix_at;
use crate::overlapping::first_near;
use memory_pages::{FrameSlots, Held};
use pointer_domain::AVal;
use std::alloc::{AllocError, Global};

/// Changes what begins at the place, where the cell of the store becomes this one.
fn store_at(
    alloc: Global,
    slots: &mut FrameSlots,
    offset: u32,
    size: u32,
    cell: &Held,
    value: &AVal,
    place: usize,
) -> Result<(), AllocError>
    requires size { is_cell_size size ≡ true }
    requires near { offset ≤ place + 7 }
    requires inside { place < offset + size / 8 }
    requires fits { offset + size / 8 ≤ length slots.old }
    requires value { IsValue size value.now }
    requires byte { IfSome ((frame_of slots.old).bytes place).value (λ word. word.size ≡ 8) }
    ensures { OnOk result
        (Becomes slots.old slots.new
        (at_place place (weakly (frame_of slots.old) offset size (seen cell.now) value.now) (frame_of slots.old))) }
{
    let start = offset as usize;
    if place < start {
        return mark_wider(alloc, slots, place, 8 * (start - place) as u32);
    }
    mix_at(
        alloc,
        slots,
        place,
        (place - start) as u32,
        size,
        cell,
        value,
    )
}

/// Stores a value in one of several possible cells, of which this is one.
///
/// Where the slots hold values of their sizes, as the slots of a memory do, the values of both sides are
/// joined; `u` of the bytes stays, and other cells that share a byte with the cell get `x`. After want of memory
/// the slots are given up.
pub fn store_weakly(
    alloc: Global,
    slots: &mut FrameSlots,
    offset: u32,
    size: u32,
    value: &AVal,
) -> Result<(), AllocError>
    requires size { is_cell_size size ≡ true }
    requires fits { offset + size / 8 ≤ length slots.old }
    requires value { IsValue size value.now }
    requires sized { FrameSized abstract_sets (frame_of slots.old) }
    ensures stored { OnOk result (frame_of slots.new ≡ weak abstract_sets (frame_of slots.old) offset size value.now) }
    ensures length { OnOk result (length slots.new ≡ length slots.old) }
    ensures canonical { OnOk result (AreCanonical slots.old → AreCanonical slots.new) }
{
    let old = standing_cell(alloc, slots, offset, size)?;
    let cell = weak_cell(alloc, &old, value)?;
    for place in first_near(offset)..offset as usize + (size / 8) as usize {
        store_at(alloc, slots, offset, size, &cell, value, place)?;
    }
    Ok(())
}
