//! The cells of an address.

ghost use Rattle.std.specs.Prelude.{◌≡◌, ◌≤◌, ◌<◌, ◌/◌, ◌+◌, ◌↔◌, ◌∷◌, [], ◌++◌, ℕ, Ok, IfOk, OnOk, IfSome, IfNone};
ghost use Rattle.std.specs.Prelude.{IsTrue, slice_get};
ghost use Rattle.alf_ops.specs.declared.history.Value.TheVariants.{Ptr};
ghost use Rattle.alf_ops.specs.Histories.{fits_in};
ghost use Rattle.alf_check.specs.Shapes.{shapes_of};
ghost use Rattle.memory_rules.specs.Addresses.{cells_in, cells_of, tested};
ghost use Rattle.abstract_memory.specs.Running.{runs_in};
ghost use Rattle.abstract_memory.specs.NextOffsets.{cells_from};

use crate::active::active_bits;
use crate::offsets::next_offset;
use alf_check::FrameRow;
use interval_congruence::Strided;
use pointer_domain::AVal;
use std::alloc::{AllocError, Global};

/// The cell fits a frame of so many bits.
fn fits(bits: u32, offset: u32, size: u32) -> bool
    requires { size ≤ 64 }
    ensures { result ≡ fits_in bits offset size }
{
    offset as u64 * 8 + size as u64 <= bits as u64
}

/// The offset of the first cell from this offset on that fits the frame.
fn next_cell(members: Strided, bits: u32, size: u32, from: u32) -> Option<u32>
    requires members { members.size ≡ 32 }
    requires some { 8 ≤ size }
    requires few { size ≤ 64 }
    ensures none { IfNone result ((frame : ℕ) → cells_from frame bits size members from ≡ []) }
    ensures above { IfSome result (λ offset. from ≤ offset) }
    ensures within { IfSome result (λ offset. offset < bits / 8) }
    ensures first { IfSome result
        (λ offset. (frame : ℕ)
        → cells_from frame bits size members from ≡ (frame, offset) ∷ cells_from frame bits size members (offset + 1)) }
{
    // Brings in that their progression has its stride and small numbers.
    let _ = members.numbers();
    match next_offset(members, from) {
        None => None,
        Some(offset) => {
            if fits(bits, offset, size) {
                Some(offset)
            } else {
                None
            }
        }
    }
}

/// Puts the cells at offsets in a frame of so many bits after those that are there.
fn put_cells(
    cells: &mut Vec<(u32, u32)>,
    place: &(u32, Strided),
    bits: u32,
    size: u32,
) -> Result<(), AllocError>
    requires members { place.now.1.size ≡ 32 }
    requires some { 8 ≤ size }
    requires few { size ≤ 64 }
    ensures { OnOk result (cells.new.items ≡ cells.old.items ++ cells_from place.now.0 bits size place.now.1 0) }
{
    let (frame, members) = *place;
    let mut from = 0;
    while let Some(offset) = next_cell(members, bits, size, from) {
        cells.push((frame, offset))?;
        from = offset + 1;
    }
    Ok(())
}

/// Puts the cells of a place after those that are there.
fn put_place(
    cells: &mut Vec<(u32, u32)>,
    rows: &[FrameRow],
    running: &[bool],
    place: &(u32, Strided),
    size: u32,
) -> Result<(), AllocError>
    requires members { place.now.1.size ≡ 32 }
    requires some { 8 ≤ size }
    requires few { size ≤ 64 }
    ensures { OnOk result
        (cells.new.items
        ≡ cells.old.items
        ++ cells_in (slice_get (shapes_of rows.now) place.now.0) (runs_in running.now) place.now size) }
{
    match active_bits(rows, running, place.0) {
        None => Ok(()),
        Some(bits) => put_cells(cells, place, bits, size),
    }
}

/// The cells of this size that the address may mean, each in an active frame that it fits: by ascending frame, and
/// in a frame by ascending offset. The flags say which functions run.
pub fn cells(
    alloc: Global,
    rows: &[FrameRow],
    running: &[bool],
    at: &AVal,
    size: u32,
) -> Result<Vec<(u32, u32)>, AllocError>
    requires some { 8 ≤ size }
    requires few { size ≤ 64 }
    ensures { IfOk result
        (λ cells. cells.items ≡ cells_of (shapes_of rows.now) (runs_in running.now) at.now.places size) }
{
    let mut cells = Vec::new(alloc);
    let mut rest = at.at();
    while let Some((place, others)) = rest.split_first() {
        put_place(&mut cells, rows, running, place, size)?;
        rest = others;
    }
    Ok(cells)
}

/// Whether the frame is active and the cell fits it. Takes no memory.
pub fn has_cell(rows: &[FrameRow], running: &[bool], frame: u32, offset: u32, size: u32) -> bool
    requires { size ≤ 64 }
    ensures { IsTrue result
        ↔ (tested (shapes_of rows.now) (runs_in running.now) (Ptr frame offset) size ≡ Ok (frame, offset)) }
{
    match active_bits(rows, running, frame) {
        None => false,
        Some(bits) => fits(bits, offset, size),
    }
}
