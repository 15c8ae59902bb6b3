//! The cells of all frames.

ghost use Rattle.std.specs.Prelude.{◌≡◌, ◌≢◌, ℕ, map, replicate, ◌+◌, ◌/◌, ◌<◌, ◌≤◌, IfOk, Some, slice_get};
ghost use Rattle.alf_ops.specs.Values.{size_of};
ghost use Rattle.alf_values.specs.declared.cells.Frame.{Frame};
ghost use Rattle.alf_values.specs.Memories.{is_live};
ghost use Rattle.alf_values.specs.Slots.{blank, written};
ghost use Rattle.alf_values.specs.Cells.{blank_parts, parts_of, idle, running_of, mark_of, tested, loaded, slots_at};
ghost use Rattle.alf_values.specs.Cells.{shapes_in, IsFilled};

use crate::bytes::Content;
use crate::slots::{Slot, load_cell, write};
use alf_check::FrameRow;
use alf_ops::{FrameShape, RunFault, Value};
use std::alloc::{AllocError, Global};

/// A frame: its owner and its size, and a slot for each byte.
#[derive(Drop)]
pub struct Frame {
    pub shape: FrameShape,
    pub slots: Vec<Slot>,
}

/// Whether a function is running, and the mark of what was stored in its frames since it was last
/// entered.
#[derive(Clone, Copy)]
pub struct Activity {
    pub runs: bool,
    pub mark: u64,
}

/// A cell that passed the tests of its address.
#[derive(Clone, Copy)]
pub struct Cell {
    pub frame: u32,
    pub owner: Option<u32>,
    pub offset: u32,
}

/// The frames of this owner are active.
fn runs(functions: &[Activity], owner: Option<u32>) -> bool
    ensures { result ≡ is_live (running_of functions.now) owner }
{
    match owner {
        None => true,
        Some(function) => match functions.get(function as usize) {
            None => false,
            Some(activity) => activity.runs,
        },
    }
}

/// The mark of what the frames of this owner hold.
pub(crate) fn mark_in(functions: &[Activity], owner: Option<u32>) -> u64
    ensures { result ≡ mark_of functions.now owner }
{
    match owner {
        None => 1,
        Some(function) => match functions.get(function as usize) {
            None => 1,
            Some(activity) => activity.mark,
        },
    }
}

/// The cell at an address, or its fault: `Kind`, then `Dead`, then `Bounds`.
pub(crate) fn cell_at(
    frames: &[Frame],
    functions: &[Activity],
    at: Value,
    size: u32,
) -> Result<Cell, RunFault>
    requires { size ≤ 64 }
    ensures { result ≡ tested frames.now (running_of functions.now) at size }
{
    let Value::Ptr { frame, offset } = at else {
        return Err(RunFault::Kind);
    };
    let Some(row) = frames.get(frame as usize) else {
        return Err(RunFault::Dead);
    };
    if !runs(functions, row.shape.owner) {
        return Err(RunFault::Dead);
    }
    if offset as u64 * 8 + size as u64 > row.shape.bits as u64 {
        return Err(RunFault::Bounds);
    }
    Ok(Cell {
        frame,
        owner: row.shape.owner,
        offset,
    })
}

/// The slots of a frame.
fn slots_of(frames: &[Frame], number: usize) -> &[Slot]
    ensures { result.now ≡ slots_at frames.now number }
{
    match frames.get(number) {
        None => &[],
        Some(frame) => frame.slots.as_slice(),
    }
}

/// What a load gives, by the test of its address.
pub(crate) fn load_from(
    frames: &[Frame],
    functions: &[Activity],
    tested: Result<Cell, RunFault>,
    size: u32,
) -> Result<Value, RunFault>
    requires some { 8 ≤ size }
    requires few { size ≤ 64 }
    ensures { result ≡ loaded frames.now functions.now size tested }
{
    match tested {
        Err(fault) => Err(fault),
        Ok(cell) => load_cell(
            slots_of(frames, cell.frame as usize),
            mark_in(functions, cell.owner),
            cell.offset,
            size,
        ),
    }
}

/// The size of a value in bits.
pub(crate) fn bits_in(value: Value) -> u32
    ensures { result ≡ size_of value }
{
    match value {
        Value::Int { size, .. } => size,
        Value::Ptr { .. } => 32,
    }
}

/// Writes a value in a cell.
pub(crate) fn write_in(frames: &mut [Frame], cell: Cell, mark: u64, value: Value, size: u32)
    requires { size ≤ 64 }
    ensures here { (frame : Frame) → slice_get frames.old cell.frame ≡ Some frame
        → IsFilled frames.new cell.frame frame.shape (written mark value frame.slots.items cell.offset 0 (size / 8)) }
    ensures others { (other : ℕ) → other ≢ cell.frame → slice_get frames.new other ≡ slice_get frames.old other }
    ensures shapes { shapes_in frames.new ≡ shapes_in frames.old }
{
    let number = cell.frame as usize;
    if number < frames.len() {
        let frame = &mut frames[number];
        write(
            &mut frame.slots,
            mark,
            value,
            cell.offset as usize,
            0,
            size / 8,
        );
    }
}

/// Slots that hold nothing.
fn blank_slots(alloc: Global, count: usize) -> Result<Vec<Slot>, AllocError>
    ensures { IfOk result (λ slots. slots.items ≡ replicate count blank) }
{
    let slot = Slot {
        mark: 0,
        content: Content::Word(0),
    };
    vec![in alloc; slot; count]
}

/// Functions none of which is running.
pub(crate) fn idle_functions(alloc: Global, count: usize) -> Result<Vec<Activity>, AllocError>
    ensures { IfOk result (λ functions. functions.items ≡ replicate count idle) }
{
    let activity = Activity {
        runs: false,
        mark: 1,
    };
    vec![in alloc; activity; count]
}

/// The frames of these rows, which hold nothing.
pub(crate) fn blank_frames(alloc: Global, rows: &[FrameRow]) -> Result<Vec<Frame>, AllocError>
    ensures { IfOk result (λ frames. map parts_of frames.items ≡ map blank_parts rows.now) }
{
    let mut frames = Vec::new(alloc);
    for row in rows {
        let slots = blank_slots(alloc, row.bits as usize / 8)?;
        let shape = FrameShape {
            owner: row.owner,
            bits: row.bits,
        };
        frames.push(Frame { shape, slots })?;
    }
    Ok(frames)
}
