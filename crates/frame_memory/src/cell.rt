//! The cells of a frame.

ghost use Rattle.std.specs.Prelude.{◌≡◌, true, IfOk};
ghost use Rattle.std.specs.Option.{option_map};
ghost use Rattle.memory_rules.specs.AbstractSets.{abstract_sets};
ghost use Rattle.memory_rules.specs.Frames.{not_kept, stands, taken};
ghost use Rattle.memory_model.specs.HeldFrames.{cell_seen, frame_of, is_cell_size};
ghost use Rattle.frame_memory.specs.StandingCells.{seen};

use crate::byte::{all_stored, some_without_store};
use memory_pages::{FrameSlots, Held, KeptCell};
use std::alloc::{AllocError, Global};

/// The cell of this size in bits that begins at an offset, if it is kept.
pub fn kept_cell(slots: &FrameSlots, offset: u32, size: u32) -> Option<&KeptCell>
    requires { is_cell_size size ≡ true }
    ensures { cell_seen (option_map (λ kept. kept.now.cell) result) ≡ (frame_of slots.now).cells offset size }
{
    match slots.slot(offset as usize) {
        None => None,
        Some(slot) => slot.cell(size),
    }
}

/// The cell that its bytes alone make, as it stands where it is not kept. Takes no memory.
pub fn cell_of_bytes(slots: &FrameSlots, offset: u32, size: u32) -> Held
    ensures { seen result ≡ not_kept (taken abstract_sets (frame_of slots.now) offset size) }
{
    let place = offset as usize;
    Held {
        value: None,
        u: some_without_store(slots, place, size / 8),
        x: all_stored(slots, place, size / 8),
    }
}

/// The cell of this size in bits that begins at an offset, as it stands, kept or not.
pub fn standing_cell(
    alloc: Global,
    slots: &FrameSlots,
    offset: u32,
    size: u32,
) -> Result<Held, AllocError>
    requires { is_cell_size size ≡ true }
    ensures { IfOk result (λ cell. seen cell ≡ stands abstract_sets (frame_of slots.now) offset size) }
{
    match kept_cell(slots, offset, size) {
        Some(cell) => cell.copy(alloc),
        None => Ok(cell_of_bytes(slots, offset, size)),
    }
}
