//! Cells that perhaps are read from their bytes after a weak store.

ghost use Rattle.std.specs.Prelude.{◌<◌, OnOk, length};
ghost use Rattle.memory_rules.specs.AbstractSets.{abstract_sets};
ghost use Rattle.memory_rules.specs.Frames.{with_x};
ghost use Rattle.memory_model.specs.HeldFrames.{frame_of};
ghost use Rattle.frame_memory.specs.Places.{Becomes, with_place, wider};

use crate::overlapping::has_wider;
use crate::slots::put;
use memory_pages::FrameSlots;
use std::alloc::{AllocError, Global};

/// Marks the cells of more bits that begin at the place.
pub(crate) fn mark_wider(
    alloc: Global,
    slots: &mut FrameSlots,
    place: usize,
    than: u32,
) -> Result<(), AllocError>
    requires { place < length slots.old }
    ensures { OnOk result
        (Becomes slots.old slots.new
        (with_place (frame_of slots.old) place ((frame_of slots.old).bytes place)
        (wider (with_x abstract_sets) than ((frame_of slots.old).cells place)))) }
{
    let Some(slot) = slots.slot(place) else {
        return Ok(());
    };
    if !has_wider(slot, than) {
        return Ok(());
    }
    let marked = slot.marked_wider(alloc, than)?;
    put(slots, place, marked)
}
