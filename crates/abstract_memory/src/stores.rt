//! Stores to cells of frames.

ghost use Rattle.std.specs.Prelude.{◌≡◌, ◌≢◌, ◌↔◌, ℕ, Bool, List, [], true, length, map, IfOk, OnOk, IsTrue};
ghost use Rattle.alf_check.specs.Shapes.{shapes_of};
ghost use Rattle.alf_ops.specs.declared.history.RunFault.{RunFault};
ghost use Rattle.alf_ops.specs.declared.history.FrameShape.{FrameShape};
ghost use Rattle.abstract_memory.specs.Running.{runs_in};
ghost use Rattle.abstract_memory.specs.OnlyCells.{IsOnlyCell, pointer_to};
ghost use Rattle.domain_core.specs.FaultSets.{has_fault};
ghost use Rattle.pointer_rules.specs.AbstractValues.{AbstractValue, Words, alone};
ghost use Rattle.pointer_rules.specs.Covering.{IsValue};
ghost use Rattle.memory_rules.specs.Addresses.{cells_of, IsAddressFault};
ghost use Rattle.memory_rules.specs.AbstractSets.{abstract_sets};
ghost use Rattle.memory_rules.specs.Covers.{IsCellSize};
ghost use Rattle.memory_rules.specs.Memories.{pinned_at, stored, strong_at, weak_all, weak_at};
ghost use Rattle.memory_model.specs.KeptMemories.{bytes_in};
ghost use Rattle.abstract_memory.specs.Cells.{AllFit, AreSized, Changes, Fits};

use crate::cell::{cells, has_cell};
use crate::fault::address_faults;
use crate::lone::lone_cell;
use alf_check::FrameRow;
use domain_core::FaultSet;
use frame_memory::{pin, store_strongly, store_weakly};
use interval_congruence::Strided;
use memory_model::held_memories_are_those_of_the_rules;
use memory_pages::FrameSlots;
use pointer_domain::AVal;
use std::alloc::{AllocError, Global};

/// Stores to the one possible cell. After want of memory the frames are given up.
fn store_in(
    alloc: Global,
    frames: &mut [FrameSlots],
    cell: (u32, u32),
    size: u32,
    value: &AVal,
) -> Result<(), AllocError>
    requires size { IsCellSize size }
    requires value { IsValue size value.now }
    requires fits { Fits (map length frames.old) size cell }
    ensures { OnOk result (Changes frames.old frames.new (λ m. strong_at abstract_sets m cell size value.now)) }
{
    held_memories_are_those_of_the_rules();
    let (frame, offset) = cell;
    store_strongly(alloc, &mut frames[frame as usize], offset, size, value)?;
    Ok(())
}

/// Stores to one of several possible cells. After want of memory the frames are given up.
fn mix_in(
    alloc: Global,
    frames: &mut [FrameSlots],
    cell: (u32, u32),
    size: u32,
    value: &AVal,
) -> Result<(), AllocError>
    requires size { IsCellSize size }
    requires value { IsValue size value.now }
    requires fits { Fits (map length frames.old) size cell }
    requires sized { AreSized frames.old }
    ensures { OnOk result (Changes frames.old frames.new (λ m. weak_at abstract_sets m cell size value.now)) }
{
    held_memories_are_those_of_the_rules();
    let (frame, offset) = cell;
    store_weakly(alloc, &mut frames[frame as usize], offset, size, value)?;
    Ok(())
}

/// Stores to each of the possible cells in order. After want of memory the frames are given up.
fn mix_all(
    alloc: Global,
    frames: &mut [FrameSlots],
    cells: &[(u32, u32)],
    size: u32,
    value: &AVal,
) -> Result<(), AllocError>
    requires size { IsCellSize size }
    requires value { IsValue size value.now }
    requires fit { AllFit (map length frames.old) size cells.now }
    requires sized { AreSized frames.old }
    ensures { OnOk result (Changes frames.old frames.new (λ m. weak_all abstract_sets m cells.now size value.now)) }
{
    let mut rest = cells;
    while let Some((cell, others)) = rest.split_first() {
        mix_in(alloc, frames, *cell, size, value)?;
        rest = others;
    }
    Ok(())
}

/// Stores to the possible cells. After want of memory the frames are given up.
pub(crate) fn store_all(
    alloc: Global,
    frames: &mut [FrameSlots],
    cells: &[(u32, u32)],
    size: u32,
    value: &AVal,
) -> Result<(), AllocError>
    requires size { IsCellSize size }
    requires value { IsValue size value.now }
    requires fit { AllFit (map length frames.old) size cells.now }
    requires sized { AreSized frames.old }
    ensures { OnOk result (Changes frames.old frames.new (λ m. stored abstract_sets m cells.now size value.now)) }
{
    match cells {
        [] => Ok(()),
        [cell] => store_in(alloc, frames, *cell, size, value),
        [_, _, ..] => mix_all(alloc, frames, cells, size, value),
    }
}

/// Stores to the cell, through each address that means it alone. After want of memory the frames are given up.
fn store_lone(
    alloc: Global,
    frames: &mut [FrameSlots],
    cell: (u32, u32),
    size: u32,
    value: &AVal,
) -> Result<(bool, FaultSet), AllocError>
    requires size { IsCellSize size }
    requires value { IsValue size value.now }
    requires fits { Fits (map length frames.old) size cell }
    ensures changes { OnOk result
        ((rows : List FrameShape) (runs : ℕ → Bool) (at : AbstractValue) → IsOnlyCell rows runs at size cell
        → Changes frames.old frames.new
        (λ m. stored abstract_sets m (cells_of rows runs at.places size) size value.now)) }
    ensures goes_on { IfOk result
        (λ stored. (rows : List FrameShape) (runs : ℕ → Bool) (at : AbstractValue) → IsOnlyCell rows runs at size cell
        → IsTrue stored.0 ↔ (cells_of rows runs at.places size ≢ [])) }
    ensures faults { IfOk result
        (λ stored. (rows : List FrameShape) (runs : ℕ → Bool) (at : AbstractValue) → IsOnlyCell rows runs at size cell
        → (fault : RunFault) → (has_fault stored.1 fault ≡ true) ↔ IsAddressFault rows runs at size fault) }
{
    store_in(alloc, frames, cell, size, value)?;
    Ok((true, FaultSet::none()))
}

/// Keeps the cell with these words. After want of memory the frames are given up.
pub(crate) fn pin_in(
    alloc: Global,
    frames: &mut [FrameSlots],
    cell: (u32, u32),
    size: u32,
    words: Strided,
) -> Result<(), AllocError>
    requires size { IsCellSize size }
    requires words { IsValue size (alone (Words words)) }
    requires fits { Fits (map length frames.old) size cell }
    ensures { OnOk result
        (Changes frames.old frames.new (λ m. pinned_at abstract_sets m cell size (alone (Words words)))) }
{
    held_memories_are_those_of_the_rules();
    let (frame, offset) = cell;
    pin(alloc, &mut frames[frame as usize], offset, size, words)?;
    Ok(())
}

/// Stores through the address. Answers whether some cell is possible, and the faults of the address. After want of
/// memory the frames are given up.
pub(crate) fn store_through(
    alloc: Global,
    rows: &[FrameRow],
    running: &[bool],
    frames: &mut [FrameSlots],
    at: &AVal,
    size: u32,
    value: &AVal,
) -> Result<(bool, FaultSet), AllocError>
    requires address { IsValue 32 at.now }
    requires size { IsCellSize size }
    requires value { IsValue size value.now }
    requires lengths { map length frames.old ≡ map bytes_in (shapes_of rows.now) }
    requires sized { AreSized frames.old }
    ensures changes { OnOk result
        (Changes frames.old frames.new
        (λ m. stored abstract_sets m (cells_of (shapes_of rows.now) (runs_in running.now) at.now.places size) size
        value.now)) }
    ensures goes_on { IfOk result
        (λ stored. IsTrue stored.0 ↔ (cells_of (shapes_of rows.now) (runs_in running.now) at.now.places size ≢ [])) }
    ensures faults { IfOk result
        (λ stored. (fault : RunFault)
        → (has_fault stored.1 fault ≡ true)
        ↔ IsAddressFault (shapes_of rows.now) (runs_in running.now) at.now size fault) }
{
    if let Some(cell) = lone_cell(rows, running, at, size) {
        return store_lone(alloc, frames, cell, size, value);
    }
    let found = cells(alloc, rows, running, at, size)?;
    let faults = address_faults(rows, running, at, size);
    store_all(alloc, frames, &found, size, value)?;
    Ok((!found.is_empty(), faults))
}

/// Stores to a cell, as through the pointer to it. Answers whether it is possible, and the faults of the pointer. After
/// want of memory the frames are given up.
pub(crate) fn store_to(
    alloc: Global,
    rows: &[FrameRow],
    running: &[bool],
    frames: &mut [FrameSlots],
    frame: u32,
    offset: u32,
    size: u32,
    value: &AVal,
) -> Result<(bool, FaultSet), AllocError>
    requires size { IsCellSize size }
    requires value { IsValue size value.now }
    requires lengths { map length frames.old ≡ map bytes_in (shapes_of rows.now) }
    requires sized { AreSized frames.old }
    ensures changes { OnOk result
        (Changes frames.old frames.new
        (λ m. stored abstract_sets m
        (cells_of (shapes_of rows.now) (runs_in running.now) (pointer_to frame offset).places size) size value.now)) }
    ensures goes_on { IfOk result
        (λ stored. IsTrue stored.0
        ↔ (cells_of (shapes_of rows.now) (runs_in running.now) (pointer_to frame offset).places size ≢ [])) }
    ensures faults { IfOk result
        (λ stored. (fault : RunFault)
        → (has_fault stored.1 fault ≡ true)
        ↔ IsAddressFault (shapes_of rows.now) (runs_in running.now) (pointer_to frame offset) size fault) }
{
    if has_cell(rows, running, frame, offset, size) {
        return store_lone(alloc, frames, (frame, offset), size, value);
    }
    let at = AVal::pointer(alloc, frame, Strided::one_word(32, offset as u64))?;
    store_through(alloc, rows, running, frames, &at, size, value)
}
