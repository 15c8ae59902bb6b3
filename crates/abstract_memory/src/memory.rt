//! The memory.

ghost use Rattle.std.specs.Prelude.{◌≡◌, ◌≢◌, ◌↔◌, ◌<◌, ◌≤◌, None, Ok, [], true, length, IfOk, OnOk, IfSome, IsTrue};
ghost use Rattle.alf_ops.specs.declared.history.RunFault.{RunFault};
ghost use Rattle.alf_ops.specs.declared.history.Value.TheVariants.{Ptr};
ghost use Rattle.domain_core.specs.FaultSets.{has_fault};
ghost use Rattle.pointer_rules.specs.AbstractValues.{Words, alone};
ghost use Rattle.pointer_rules.specs.Covering.{IsValue};
ghost use Rattle.memory_rules.specs.Covers.{IsCellSize};
ghost use Rattle.memory_rules.specs.Memories.{fresh, entered, left, pinned_at, joined_values};
ghost use Rattle.memory_rules.specs.Addresses.{tested, cells_of, load_at, stored_at, IsAddressFault, IsLoadFault};
ghost use Rattle.memory_rules.specs.AbstractSets.{abstract_sets};
ghost use Rattle.memory_model.specs.KeptMemories.{memory_in, rows_of, IsMemory};
ghost use Rattle.abstract_memory.specs.OnlyCells.{pointer_to};
ghost use Rattle.abstract_memory.specs.Cells.{IsCellOf};

use crate::cell::has_cell;
use crate::frames::{copied_frames, empty_frames, frames_joined};
use crate::loads::{load_from, load_through};
use crate::running::Running;
use crate::start::blank_frames;
use crate::stores::{pin_in, store_through, store_to};
use alf_check::Checked;
use domain_core::{FaultSet, Lattice};
use interval_congruence::Strided;
use memory_model::held_memories_are_those_of_the_rules;
use memory_pages::FrameSlots;
use pointer_domain::AVal;
use std::alloc::{AllocError, Global};
use std::marker::Model;

/// Which functions of a program run, and the bytes and cells of its frames.
///
/// It is seen as the program that it was made for, a flag for each function and the slots of each frame;
/// `memory_in` is the memory that these stand for. After want of memory a memory that was to change is given up.
#[derive(Drop)]
pub struct AMem<'a> {
    checked: &'a Checked,
    running: Running,
    frames: Vec<FrameSlots>,
}

impl<'a> Model for AMem<'a> {
    ghost use Rattle.std.specs.Coded.{codes};
    ghost use Rattle.alf_check.specs.contracts.rows.Term as e;
    ghost use Rattle.memory_model.specs.KeptMemories.{MemoryParts};

    ghost Value = { MemoryParts };

    ghost coded = { Prim.hlevel (codes, e.the_row.coded) };

    ghost view = { λ memory. record {
      checked = memory.checked.now;
      running = memory.running;
      frames = memory.frames.items;
    } };
}

impl<'a> AMem<'a> {
    /// The memory before each event: no function runs, so that the global frames alone are active, and no cell
    /// is kept.
    pub fn new(alloc: Global, checked: &'a Checked) -> Result<AMem<'a>, AllocError>
        ensures checked { IfOk result (λ memory. memory.checked ≡ checked.now) }
        ensures kept { IfOk result IsMemory }
        ensures fresh { IfOk result (λ memory. memory_in memory ≡ fresh abstract_sets) }
    {
        held_memories_are_those_of_the_rules();
        let frames = blank_frames(alloc, checked.frames())?;
        let running = Running::idle(alloc, checked.func_count() as usize)?;
        Ok(AMem {
            checked,
            running,
            frames,
        })
    }

    /// Enters a function: its frames are active, and hold nothing.
    pub fn enter(&mut self, alloc: Global, func: u32) -> Result<(), AllocError>
        requires kept { IsMemory self.old }
        requires func { func < length self.old.running }
        ensures checked { OnOk result (self.new.checked ≡ self.old.checked) }
        ensures kept { OnOk result (IsMemory self.new) }
        ensures entered { OnOk result
            (memory_in self.new ≡ entered abstract_sets (rows_of self.old.checked) (memory_in self.old) func) }
    {
        held_memories_are_those_of_the_rules();
        empty_frames(alloc, self.checked.frames(), func, &mut self.frames)?;
        self.running.set(func as usize, true);
        Ok(())
    }

    /// Leaves a function: its frames are no longer active. Takes no memory.
    pub fn leave(&mut self, func: u32)
        requires { func < length self.old.running }
        ensures checked { self.new.checked ≡ self.old.checked }
        ensures kept { IsMemory self.old → IsMemory self.new }
        ensures left { memory_in self.new ≡ left abstract_sets (memory_in self.old) func }
    {
        held_memories_are_those_of_the_rules();
        self.running.set(func as usize, false);
    }

    /// Whether the cell lies in its frame, which is active. Takes no memory.
    pub fn has_cell(&self, frame: u32, offset: u32, size: u32) -> bool
        requires { size ≤ 64 }
        ensures { IsTrue result
            ↔ (tested (rows_of self.now.checked) (memory_in self.now).runs (Ptr frame offset) size
            ≡ Ok (frame, offset)) }
    {
        has_cell(
            self.checked.frames(),
            self.running.as_slice(),
            frame,
            offset,
            size,
        )
    }

    /// What a load through the address gives: the values of all cells that it may mean, joined in their order, and
    /// the faults of the address and of the cells.
    pub fn load(
        &self,
        alloc: Global,
        at: &AVal,
        size: u32,
    ) -> Result<(Option<AVal>, FaultSet), AllocError>
        requires kept { IsMemory self.now }
        requires address { IsValue 32 at.now }
        requires size { IsCellSize size }
        ensures value { IfOk result
            (λ loaded. loaded.0
            ≡ joined_values abstract_sets None (load_at (rows_of self.now.checked) (memory_in self.now) at.now size)) }
        ensures sized { IfOk result (λ loaded. IfSome loaded.0 (IsValue size)) }
        ensures faults { IfOk result
            (λ loaded. (fault : RunFault)
            → (has_fault loaded.1 fault ≡ true)
            ↔ IsLoadFault (rows_of self.now.checked) (memory_in self.now) at.now size fault) }
    {
        load_through(
            alloc,
            self.checked.frames(),
            self.running.as_slice(),
            &self.frames,
            at,
            size,
        )
    }

    /// What a load of the cell at an offset of a frame gives, as through the pointer to it, which need not be made.
    pub fn load_cell(
        &self,
        alloc: Global,
        frame: u32,
        offset: u32,
        size: u32,
    ) -> Result<(Option<AVal>, FaultSet), AllocError>
        requires kept { IsMemory self.now }
        requires size { IsCellSize size }
        ensures value { IfOk result
            (λ loaded. loaded.0
            ≡ joined_values abstract_sets None
            (load_at (rows_of self.now.checked) (memory_in self.now) (pointer_to frame offset) size)) }
        ensures sized { IfOk result (λ loaded. IfSome loaded.0 (IsValue size)) }
        ensures faults { IfOk result
            (λ loaded. (fault : RunFault)
            → (has_fault loaded.1 fault ≡ true)
            ↔ IsLoadFault (rows_of self.now.checked) (memory_in self.now) (pointer_to frame offset) size fault) }
    {
        load_from(
            alloc,
            self.checked.frames(),
            self.running.as_slice(),
            &self.frames,
            frame,
            offset,
            size,
        )
    }

    /// Stores the value through the address: strongly where one cell is possible, else weakly to each of them in
    /// order. Answers whether some run goes on, which is whether some cell is possible, and the faults of the
    /// address.
    pub fn store(
        &mut self,
        alloc: Global,
        at: &AVal,
        value: &AVal,
        size: u32,
    ) -> Result<(bool, FaultSet), AllocError>
        requires kept { IsMemory self.old }
        requires address { IsValue 32 at.now }
        requires size { IsCellSize size }
        requires value { IsValue size value.now }
        ensures checked { OnOk result (self.new.checked ≡ self.old.checked) }
        ensures kept { OnOk result (IsMemory self.new) }
        ensures stored { OnOk result
            (memory_in self.new ≡ stored_at (rows_of self.old.checked) (memory_in self.old) at.now size value.now) }
        ensures goes_on { IfOk result
            (λ stored. IsTrue stored.0
            ↔ (cells_of (rows_of self.old.checked) (memory_in self.old).runs at.now.places size ≢ [])) }
        ensures faults { IfOk result
            (λ stored. (fault : RunFault)
            → (has_fault stored.1 fault ≡ true)
            ↔ IsAddressFault (rows_of self.old.checked) (memory_in self.old).runs at.now size fault) }
    {
        store_through(
            alloc,
            self.checked.frames(),
            self.running.as_slice(),
            &mut self.frames,
            at,
            size,
            value,
        )
    }

    /// Stores the value in the cell at an offset of a frame, as through the pointer to it, which need not be made.
    pub fn store_cell(
        &mut self,
        alloc: Global,
        frame: u32,
        offset: u32,
        value: &AVal,
        size: u32,
    ) -> Result<(bool, FaultSet), AllocError>
        requires kept { IsMemory self.old }
        requires size { IsCellSize size }
        requires value { IsValue size value.now }
        ensures checked { OnOk result (self.new.checked ≡ self.old.checked) }
        ensures kept { OnOk result (IsMemory self.new) }
        ensures stored { OnOk result
            (memory_in self.new
            ≡ stored_at (rows_of self.old.checked) (memory_in self.old) (pointer_to frame offset) size value.now) }
        ensures goes_on { IfOk result
            (λ stored. IsTrue stored.0
            ↔ (cells_of (rows_of self.old.checked) (memory_in self.old).runs (pointer_to frame offset).places size
            ≢ [])) }
        ensures faults { IfOk result
            (λ stored. (fault : RunFault)
            → (has_fault stored.1 fault ≡ true)
            ↔ IsAddressFault (rows_of self.old.checked) (memory_in self.old).runs (pointer_to frame offset) size
            fault) }
    {
        store_to(
            alloc,
            self.checked.frames(),
            self.running.as_slice(),
            &mut self.frames,
            frame,
            offset,
            size,
            value,
        )
    }

    /// Keeps the cell with these words and nothing else; the bytes stay.
    pub fn pin(
        &mut self,
        alloc: Global,
        frame: u32,
        offset: u32,
        size: u32,
        value: Strided,
    ) -> Result<(), AllocError>
        requires kept { IsMemory self.old }
        requires size { IsCellSize size }
        requires cell { IsCellOf (rows_of self.old.checked) frame offset size }
        requires value { value.size ≡ size }
        ensures checked { OnOk result (self.new.checked ≡ self.old.checked) }
        ensures kept { OnOk result (IsMemory self.new) }
        ensures pinned { OnOk result
            (memory_in self.new
            ≡ pinned_at abstract_sets (memory_in self.old) (frame, offset) size (alone (Words value))) }
    {
        // Brings in that their progression has its stride and small numbers.
        let _ = value.numbers();
        pin_in(alloc, &mut self.frames, (frame, offset), size, value)
    }
}

impl<'a> Lattice for AMem<'a> {
    ghost use Rattle.memory_model.specs.SeenOrders.{parts_order};
    ghost use Rattle.memory_model.specs.SeenOrderLaws.{parts_are_order};

    ghost order = { parts_order };

    ghost is_order = { parts_are_order };

    fn copy(&self, alloc: Global) -> Result<Self, AllocError> {
        Ok(AMem {
            checked: self.checked,
            running: self.running.copy(alloc)?,
            frames: copied_frames(alloc, &self.frames)?,
        })
    }

    fn join(&self, alloc: Global, other: &Self) -> Result<Self, AllocError> {
        held_memories_are_those_of_the_rules();
        let frames = frames_joined(alloc, self.checked.frames(), &self.frames, &other.frames)?;
        let running = self.running.copy(alloc)?;
        Ok(AMem {
            checked: self.checked,
            running,
            frames,
        })
    }
}
