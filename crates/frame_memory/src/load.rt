//! Loads.

ghost use Rattle.std.specs.Prelude.{◌≡◌, ◌↔◌, ◌⊎◌, ◌∷◌, [], true, false, Ok, Some, IfOk, IfSome, Contains};
ghost use Rattle.alf_ops.specs.declared.history.RunFault.{RunFault};
ghost use Rattle.domain_core.specs.FaultSets.{has_fault};
ghost use Rattle.pointer_rules.specs.Covering.{IsValue};
ghost use Rattle.memory_rules.specs.AbstractSets.{abstract_sets};
ghost use Rattle.memory_rules.specs.Covers.{FrameSized};
ghost use Rattle.memory_rules.specs.Frames.{from_bytes, load_results, not_kept, results, taken};
ghost use Rattle.memory_rules.specs.Memories.{faults_of};
ghost use Rattle.memory_model.specs.HeldFrames.{frame_of, is_cell_size};
ghost use Rattle.frame_memory.specs.StandingCells.{seen};
ghost use Rattle.frame_memory.specs.LoadedResults.{onto};

use crate::cell::{cell_of_bytes, kept_cell};
use crate::loaded::{Loaded, fault_onto, value_onto, word_onto};
use crate::word::{some_pointer, word_of_bytes};
use alf_ops::RunFault;
use memory_pages::{FrameSlots, KeptCell};
use pointer_domain::AVal;
use std::alloc::{AllocError, Global};

/// What the bytes of a cell give, onto what was loaded before.
fn bytes_onto(
    alloc: Global,
    slots: &FrameSlots,
    offset: u32,
    size: u32,
    before: Loaded,
) -> Result<Loaded, AllocError>
    requires size { is_cell_size size ≡ true }
    requires frame_sized { FrameSized abstract_sets (frame_of slots.now) }
    requires before_sized { IfSome before.value (IsValue size) }
    ensures { IfOk result
        (λ now. now ≡ onto before (from_bytes abstract_sets (taken abstract_sets (frame_of slots.now) offset size))) }
{
    let place = offset as usize;
    let word = word_of_bytes(slots, place, size / 8);
    let own = word_onto(alloc, before, word)?;
    let of_pointer = some_pointer(slots, place, size / 8);
    Ok(fault_onto(own, of_pointer, RunFault::Mixed))
}

/// The value of a cell that is known to hold it.
fn known_in(cell: &KeptCell) -> Option<&AVal>
    ensures { IfSome result (λ value. seen cell.now.cell ≡ record { value = Some value.now; u = false; x = false }) }
{
    match cell.value() {
        None => None,
        Some(value) => {
            if cell.u() || cell.x() {
                None
            } else {
                Some(value)
            }
        }
    }
}

/// The value of the cell of this size in bits at an offset, where the cell is known to hold it: it is all that a load
/// of the cell gives. Takes no memory.
pub fn known_value(slots: &FrameSlots, offset: u32, size: u32) -> Option<&AVal>
    requires size { is_cell_size size ≡ true }
    requires frame_sized { FrameSized abstract_sets (frame_of slots.now) }
    ensures value { IfSome result
        (λ value. load_results abstract_sets (frame_of slots.now) offset size ≡ Ok value.now ∷ []) }
    ensures sized { IfSome result (λ value. IsValue size value.now) }
{
    match kept_cell(slots, offset, size) {
        None => None,
        Some(cell) => known_in(cell),
    }
}

/// The cell that its bytes alone make, with its size. Takes no memory.
fn unkept_cell(slots: &FrameSlots, offset: u32, size: u32) -> KeptCell
    ensures { seen result.cell ≡ not_kept (taken abstract_sets (frame_of slots.now) offset size) }
{
    KeptCell::of(size, cell_of_bytes(slots, offset, size))
}

/// What a cell gives over its bytes, onto what was loaded before.
fn cell_onto(
    alloc: Global,
    slots: &FrameSlots,
    offset: u32,
    size: u32,
    cell: &KeptCell,
    before: Loaded,
) -> Result<Loaded, AllocError>
    requires size { is_cell_size size ≡ true }
    requires frame_sized { FrameSized abstract_sets (frame_of slots.now) }
    requires cell_sized { IfSome cell.now.cell.value (IsValue size) }
    requires before_sized { IfSome before.value (IsValue size) }
    ensures { IfOk result
        (λ now. now
        ≡ onto before
        (results abstract_sets (taken abstract_sets (frame_of slots.now) offset size) (seen cell.now.cell))) }
{
    let own = value_onto(alloc, before, cell.value())?;
    let told = fault_onto(own, cell.u(), RunFault::Uninit);
    if cell.x() {
        bytes_onto(alloc, slots, offset, size, told)
    } else {
        Ok(told)
    }
}

/// What a load of the cell of this size in bits at an offset gives, joined onto what was loaded before.
pub fn load_onto(
    alloc: Global,
    slots: &FrameSlots,
    offset: u32,
    size: u32,
    before: Loaded,
) -> Result<Loaded, AllocError>
    requires size { is_cell_size size ≡ true }
    requires frame_sized { FrameSized abstract_sets (frame_of slots.now) }
    requires before_sized { IfSome before.value (IsValue size) }
    ensures onto { IfOk result
        (λ now. now ≡ onto before (load_results abstract_sets (frame_of slots.now) offset size)) }
    ensures faults { IfOk result
        (λ now. (kind : RunFault)
        → (has_fault now.faults kind ≡ true)
        ↔ ((has_fault before.faults kind ≡ true)
        ⊎ Contains (faults_of abstract_sets (load_results abstract_sets (frame_of slots.now) offset size)) kind)) }
    ensures sized { IfOk result (λ now. IfSome now.value (IsValue size)) }
{
    match kept_cell(slots, offset, size) {
        Some(cell) => cell_onto(alloc, slots, offset, size, cell, before),
        None => cell_onto(
            alloc,
            slots,
            offset,
            size,
            &unkept_cell(slots, offset, size),
            before,
        ),
    }
}
