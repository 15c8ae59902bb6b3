//! Cells that a strong store drops.

ghost use Rattle.std.specs.Prelude.{◌≡◌, ◌<◌, IfOk, OnOk, None, length};
ghost use Rattle.memory_pages.specs.Slots.{without_wider as without_wider_of};
ghost use Rattle.memory_model.specs.HeldFrames.{frame_of};
ghost use Rattle.frame_memory.specs.Places.{Becomes, with_place, wider};

use crate::overlapping::has_wider;
use crate::slots::put;
use memory_pages::{FrameSlots, Slot};
use std::alloc::{AllocError, Global};

/// A copy of the slot without the cells of more bits.
fn without_wider(alloc: Global, slot: &Slot, than: u32) -> Result<Slot, AllocError>
    ensures { IfOk result (λ copy. copy ≡ without_wider_of slot.now than) }
{
    let mut copy = slot.copy(alloc)?;
    copy.drop_wider(than);
    Ok(copy)
}

/// Drops the cells of more bits that begin at the place.
pub(crate) fn drop_wider(
    alloc: Global,
    slots: &mut FrameSlots,
    place: usize,
    than: u32,
) -> Result<(), AllocError>
    requires { place < length slots.old }
    ensures { OnOk result
        (Becomes slots.old slots.new
        (with_place (frame_of slots.old) place ((frame_of slots.old).bytes place)
        (wider (λ cell. None) than ((frame_of slots.old).cells place)))) }
{
    let Some(slot) = slots.slot(place) else {
        return Ok(());
    };
    if !has_wider(slot, than) {
        return Ok(());
    }
    let narrow = without_wider(alloc, slot, than)?;
    put(slots, place, narrow)
}
