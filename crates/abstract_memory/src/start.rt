//! Frames that hold nothing.

ghost use Rattle.std.specs.Prelude.{◌≡◌, map, IfOk};
ghost use Rattle.abstract_memory.specs.Blank.{blank_frame};
ghost use Rattle.memory_model.specs.HeldMemories.{held_no_byte};

use alf_check::FrameRow;
use memory_pages::{Byte, FrameSlots};
use std::alloc::{AllocError, Global};

/// A byte without a store.
fn no_byte() -> Byte
    ensures { result ≡ held_no_byte }
{
    Byte {
        value: None,
        u: true,
        p: false,
    }
}

/// A frame of this row that holds nothing.
pub(crate) fn blank(alloc: Global, row: &FrameRow) -> Result<FrameSlots, AllocError>
    ensures { IfOk result (λ slots. slots ≡ blank_frame row.now) }
{
    let byte = no_byte();
    FrameSlots::new(alloc, (row.bits / 8) as usize, &byte)
}

/// Frames of these rows that hold nothing.
pub(crate) fn blank_frames(alloc: Global, rows: &[FrameRow]) -> Result<Vec<FrameSlots>, AllocError>
    ensures { IfOk result (λ frames. frames.items ≡ map blank_frame rows.now) }
{
    let mut frames = Vec::new(alloc);
    for row in rows {
        frames.push(blank(alloc, row)?)?;
    }
    Ok(frames)
}
