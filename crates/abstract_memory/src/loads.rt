//! Loads of cells of frames.

ghost use Rattle.std.specs.Prelude.{◌≡◌, ◌↔◌, ◌∷◌, [], Bool, true, List, Ok, None, length, map, IfOk, IfSome};
ghost use Rattle.alf_check.specs.Shapes.{shapes_of};
ghost use Rattle.alf_ops.specs.declared.history.RunFault.{RunFault};
ghost use Rattle.alf_ops.specs.declared.history.FrameShape.{FrameShape};
ghost use Rattle.domain_core.specs.FaultSets.{has_fault};
ghost use Rattle.pointer_rules.specs.AbstractValues.{AbstractValue};
ghost use Rattle.pointer_rules.specs.Covering.{IsValue};
ghost use Rattle.memory_rules.specs.Addresses.{load_at, IsLoadFault};
ghost use Rattle.memory_rules.specs.AbstractSets.{abstract_sets};
ghost use Rattle.memory_rules.specs.Covers.{IsCellSize};
ghost use Rattle.memory_rules.specs.Frames.{load_results};
ghost use Rattle.memory_rules.specs.Memories.{joined_values, load_all};
ghost use Rattle.memory_model.specs.HeldMemories.{memory_of};
ghost use Rattle.frame_memory.specs.LoadedResults.{onto};
ghost use Rattle.abstract_memory.specs.Running.{runs_in};
ghost use Rattle.abstract_memory.specs.OnlyCells.{IsOnlyCell, pointer_to};
ghost use Rattle.memory_model.specs.KeptMemories.{bytes_in};
ghost use Rattle.abstract_memory.specs.Cells.{AllFit, AreSized, Fits, Loads};

use crate::cell::{cells, has_cell};
use crate::fault::address_faults;
use crate::lone::lone_cell;
use alf_check::FrameRow;
use domain_core::{FaultSet, Lattice};
use frame_memory::{Loaded, known_value, load_onto};
use interval_congruence::Strided;
use memory_pages::FrameSlots;
use pointer_domain::AVal;
use std::alloc::{AllocError, Global};

/// What a load of the cell gives, joined onto what was loaded before.
fn load_in(
    alloc: Global,
    frames: &[FrameSlots],
    cell: (u32, u32),
    size: u32,
    before: Loaded,
) -> Result<Loaded, AllocError>
    requires size { IsCellSize size }
    requires fits { Fits (map length frames.now) size cell }
    requires sized { AreSized frames.now }
    requires before { IfSome before.value (IsValue size) }
    ensures value { IfOk result
        (λ now. (running : List Bool)
        → now ≡ onto before (load_results abstract_sets ((memory_of running frames.now).frames cell.0) cell.1 size)) }
    ensures sized { IfOk result (λ now. IfSome now.value (IsValue size)) }
{
    let (frame, offset) = cell;
    load_onto(alloc, &frames[frame as usize], offset, size, before)
}

/// What loads of the cells give, joined onto what was loaded before.
pub(crate) fn load_cells(
    alloc: Global,
    frames: &[FrameSlots],
    cells: &[(u32, u32)],
    size: u32,
    before: Loaded,
) -> Result<Loaded, AllocError>
    requires size { IsCellSize size }
    requires fit { AllFit (map length frames.now) size cells.now }
    requires sized { AreSized frames.now }
    requires before { IfSome before.value (IsValue size) }
    ensures value { IfOk result
        (λ now. (running : List Bool)
        → now ≡ onto before (load_all abstract_sets (memory_of running frames.now) cells.now size)) }
    ensures sized { IfOk result (λ now. IfSome now.value (IsValue size)) }
{
    let mut loaded = before;
    let mut rest = cells;
    while let Some((cell, others)) = rest.split_first() {
        loaded = load_in(alloc, frames, *cell, size, loaded)?;
        rest = others;
    }
    Ok(loaded)
}

/// The value of the cell, where it is known to hold it: it is all that a load of the cell gives.
fn known_in(frames: &[FrameSlots], cell: (u32, u32), size: u32) -> Option<&AVal>
    requires size { IsCellSize size }
    requires fits { Fits (map length frames.now) size cell }
    requires sized { AreSized frames.now }
    ensures value { IfSome result
        (λ value. (running : List Bool)
        → load_results abstract_sets ((memory_of running frames.now).frames cell.0) cell.1 size ≡ Ok value.now ∷ []) }
    ensures sized { IfSome result (λ value. IsValue size value.now) }
{
    let (frame, offset) = cell;
    known_value(&frames[frame as usize], offset, size)
}

/// What a load of the cell gives through each address that means it alone, however the cell is held.
fn load_any(
    alloc: Global,
    frames: &[FrameSlots],
    cell: (u32, u32),
    size: u32,
) -> Result<(Option<AVal>, FaultSet), AllocError>
    requires size { IsCellSize size }
    requires fits { Fits (map length frames.now) size cell }
    requires sized { AreSized frames.now }
    ensures { IfOk result
        (λ loaded. (rows : List FrameShape) (running : List Bool) (at : AbstractValue)
        → IsOnlyCell rows (runs_in running) at size cell → Loads rows (memory_of running frames.now) at size loaded) }
{
    let before = Loaded {
        value: None,
        faults: FaultSet::none(),
    };
    let loaded = load_in(alloc, frames, cell, size, before)?;
    Ok((loaded.value, loaded.faults))
}

/// What a load of the cell gives through each address that means it alone.
fn load_lone(
    alloc: Global,
    frames: &[FrameSlots],
    cell: (u32, u32),
    size: u32,
) -> Result<(Option<AVal>, FaultSet), AllocError>
    requires size { IsCellSize size }
    requires fits { Fits (map length frames.now) size cell }
    requires sized { AreSized frames.now }
    ensures { IfOk result
        (λ loaded. (rows : List FrameShape) (running : List Bool) (at : AbstractValue)
        → IsOnlyCell rows (runs_in running) at size cell → Loads rows (memory_of running frames.now) at size loaded) }
{
    let Some(value) = known_in(frames, cell, size) else {
        return load_any(alloc, frames, cell, size);
    };
    let copy = value.copy(alloc)?;
    Ok((Some(copy), FaultSet::none()))
}

/// What a load through the address gives.
pub(crate) fn load_through(
    alloc: Global,
    rows: &[FrameRow],
    running: &[bool],
    frames: &[FrameSlots],
    at: &AVal,
    size: u32,
) -> Result<(Option<AVal>, FaultSet), AllocError>
    requires address { IsValue 32 at.now }
    requires size { IsCellSize size }
    requires lengths { map length frames.now ≡ map bytes_in (shapes_of rows.now) }
    requires sized { AreSized frames.now }
    ensures value { IfOk result
        (λ loaded. loaded.0
        ≡ joined_values abstract_sets None
        (load_at (shapes_of rows.now) (memory_of running.now frames.now) at.now size)) }
    ensures sized { IfOk result (λ loaded. IfSome loaded.0 (IsValue size)) }
    ensures faults { IfOk result
        (λ loaded. (fault : RunFault)
        → (has_fault loaded.1 fault ≡ true)
        ↔ IsLoadFault (shapes_of rows.now) (memory_of running.now frames.now) at.now size fault) }
{
    if let Some(cell) = lone_cell(rows, running, at, size) {
        return load_lone(alloc, frames, cell, size);
    }
    let found = cells(alloc, rows, running, at, size)?;
    let before = Loaded {
        value: None,
        faults: address_faults(rows, running, at, size),
    };
    let loaded = load_cells(alloc, frames, &found, size, before)?;
    Ok((loaded.value, loaded.faults))
}

/// What a load of a cell gives, as through the pointer to it.
pub(crate) fn load_from(
    alloc: Global,
    rows: &[FrameRow],
    running: &[bool],
    frames: &[FrameSlots],
    frame: u32,
    offset: u32,
    size: u32,
) -> Result<(Option<AVal>, FaultSet), AllocError>
    requires size { IsCellSize size }
    requires lengths { map length frames.now ≡ map bytes_in (shapes_of rows.now) }
    requires sized { AreSized frames.now }
    ensures value { IfOk result
        (λ loaded. loaded.0
        ≡ joined_values abstract_sets None
        (load_at (shapes_of rows.now) (memory_of running.now frames.now) (pointer_to frame offset) size)) }
    ensures sized { IfOk result (λ loaded. IfSome loaded.0 (IsValue size)) }
    ensures faults { IfOk result
        (λ loaded. (fault : RunFault)
        → (has_fault loaded.1 fault ≡ true)
        ↔ IsLoadFault (shapes_of rows.now) (memory_of running.now frames.now) (pointer_to frame offset) size fault) }
{
    if has_cell(rows, running, frame, offset, size) {
        return load_lone(alloc, frames, (frame, offset), size);
    }
    let at = AVal::pointer(alloc, frame, Strided::one_word(32, offset as u64))?;
    load_through(alloc, rows, running, frames, &at, size)
}
