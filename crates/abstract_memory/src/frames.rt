//! The frames of a memory.

ghost use Rattle.std.specs.Prelude.{◌≡◌, ◌++◌, length, IfOk, OnOk};
ghost use Rattle.alf_ops.specs.Histories.{is_owner};
ghost use Rattle.alf_check.specs.Shapes.{shapes_of};
ghost use Rattle.memory_model.specs.HeldMemories.{entered_frame, entered_frames, joined_slots, joined_frames};
ghost use Rattle.abstract_memory.specs.Rows.{shape_of, IsSlots, AreFrames};

use crate::start::blank;
use alf_check::FrameRow;
use frame_memory::joined_frame;
use memory_pages::FrameSlots;
use std::alloc::{AllocError, Global};

/// The frame is of the function.
fn is_own(row: &FrameRow, func: u32) -> bool
    ensures { result ≡ is_owner row.now.owner func }
{
    match row.owner {
        None => false,
        Some(owner) => owner == func,
    }
}

/// A frame of the function holds nothing. After want of memory the frame is given up.
fn empty_frame(
    alloc: Global,
    row: &FrameRow,
    func: u32,
    slots: &mut FrameSlots,
) -> Result<(), AllocError>
    ensures { OnOk result (slots.new ≡ entered_frame func (shape_of row.now) slots.old) }
{
    if is_own(row, func) {
        *slots = blank(alloc, row)?;
    }
    Ok(())
}

/// The frames of the function hold nothing. After want of memory the frames are given up.
pub(crate) fn empty_frames(
    alloc: Global,
    rows: &[FrameRow],
    func: u32,
    frames: &mut [FrameSlots],
) -> Result<(), AllocError>
    requires { length frames.old ≡ length rows.now }
    ensures { OnOk result (frames.new ≡ entered_frames (shapes_of rows.now) func frames.old) }
{
    for at in 0..rows.len() {
        empty_frame(alloc, &rows[at], func, &mut frames[at])?;
    }
    Ok(())
}

/// Copies of the frames, on shared pages.
pub(crate) fn copied_frames(
    alloc: Global,
    frames: &[FrameSlots],
) -> Result<Vec<FrameSlots>, AllocError>
    ensures { IfOk result (λ copy. copy.items ≡ frames.now) }
{
    let mut copy = Vec::with_capacity(alloc, frames.len())?;
    for slots in frames {
        copy.push(slots.copy()?)?;
    }
    Ok(copy)
}

/// The join of two frames of this row.
fn joined_row(
    alloc: Global,
    row: &FrameRow,
    a: &FrameSlots,
    b: &FrameSlots,
) -> Result<FrameSlots, AllocError>
    requires first { IsSlots row.now.bits a.now }
    requires second { IsSlots row.now.bits b.now }
    ensures { IfOk result (λ slots. slots ≡ joined_slots a.now b.now) }
{
    joined_frame(alloc, a, b, row.bits / 8)
}

/// Adds the joins of the frames, one by one. After want of memory the frames are given up.
fn push_joined(
    alloc: Global,
    rows: &[FrameRow],
    a: &[FrameSlots],
    b: &[FrameSlots],
    frames: &mut Vec<FrameSlots>,
) -> Result<(), AllocError>
    requires first { AreFrames rows.now a.now }
    requires second { AreFrames rows.now b.now }
    ensures { OnOk result (frames.new.items ≡ frames.old.items ++ joined_frames a.now b.now) }
{
    let Some((row, rows)) = rows.split_first() else {
        return Ok(());
    };
    let Some((first, a)) = a.split_first() else {
        return Ok(());
    };
    let Some((second, b)) = b.split_first() else {
        return Ok(());
    };
    frames.push(joined_row(alloc, row, first, second)?)?;
    push_joined(alloc, rows, a, b, frames)
}

/// The frames of these rows, joined one by one.
pub(crate) fn frames_joined(
    alloc: Global,
    rows: &[FrameRow],
    a: &[FrameSlots],
    b: &[FrameSlots],
) -> Result<Vec<FrameSlots>, AllocError>
    requires first { AreFrames rows.now a.now }
    requires second { AreFrames rows.now b.now }
    ensures { IfOk result (λ frames. frames.items ≡ joined_frames a.now b.now) }
{
    let mut frames = Vec::new(alloc);
    push_joined(alloc, rows, a, b, &mut frames)?;
    Ok(frames)
}
