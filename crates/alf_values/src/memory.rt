//! The memory of a run.

ghost use Rattle.std.specs.Prelude.{◌≡◌, ◌<◌, ◌+◌, ◌^◌, ◌↔◌, IsTrue, List, [], ◌∷◌, length, IfOk, OnOk, OnErr};
ghost use Rattle.alf_ops.specs.declared.history.RunEvent.{RunEvent};
ghost use Rattle.alf_ops.specs.Histories.{load};
ghost use Rattle.alf_check.specs.CheckedPrograms.{seen};
ghost use Rattle.alf_check.specs.Kept.{IsCellSize};
ghost use Rattle.alf_values.specs.Memories.{IsMadeFor, shapes};
ghost use Rattle.alf_values.specs.Standing.{StandsFor, IsStorable, Stored};

use crate::cells::{
    Activity, Frame, bits_in, blank_frames, cell_at, idle_functions, load_from, mark_in, write_in,
};
use crate::fault::ValueFault;
use alf_check::Checked;
use alf_ops::{RunFault, Value};
use std::alloc::{AllocError, Global};
use std::marker::Model;

/// Whether 64 bits have no mark after this one.
fn is_last(mark: u64) -> bool
    ensures { IsTrue result ↔ mark + 1 ≡ 2 ^ 64 }
{
    mark == u64::MAX
}

/// The frames of a program and what each of their bytes holds.
///
/// 24 bytes are kept for each byte of a frame. A load or a store takes time by its own size, entering
/// and leaving take the same time for all frames, and none of them takes memory.
#[derive(Drop)]
pub struct Frames {
    frames: Vec<Frame>,
    functions: Vec<Activity>,
}

impl Model for Frames {
    ghost use Rattle.alf_values.specs.Memories.{RunMemory};

    ghost Value = { RunMemory };

    ghost use Rattle.alf_values.specs.Cells.{memory_of, AreKept};

    ghost view = { λ frames. memory_of frames.frames.items frames.functions.items };

    ghost invariant = { λ frames. AreKept frames.frames.items frames.functions.items };
}

impl Frames {
    /// The frames of a program in which nothing was stored: only the global ones are active.
    pub fn new(alloc: Global, checked: &Checked) -> Result<Frames, AllocError>
        ensures made { IfOk result (λ frames. IsMadeFor (seen checked.now) frames) }
        ensures stands { IfOk result (λ frames. StandsFor frames []) }
    {
        let frames = blank_frames(alloc, checked.frames())?;
        let functions = idle_functions(alloc, checked.func_count() as usize)?;
        Ok(Frames { frames, functions })
    }

    /// Enters a function: its frames are active, and hold nothing.
    ///
    /// The one refusal is that of a function that was entered 2^64 - 2 times.
    pub fn enter(&mut self, func: u32) -> Result<(), AllocError>
        requires { func < length self.old.running }
        ensures shapes { shapes self.new ≡ shapes self.old }
        ensures functions { length self.new.running ≡ length self.old.running }
        ensures stands { OnOk result
            ((history : List RunEvent) → StandsFor self.old history
            → StandsFor self.new (RunEvent.Enter func ∷ history)) }
        ensures refused { OnErr result (self.new ≡ self.old) }
    {
        let number = func as usize;
        let mark = mark_in(&self.functions, Some(func));
        if is_last(mark) {
            return Err(AllocError);
        }
        self.functions[number] = Activity {
            runs: true,
            mark: mark + 1,
        };
        Ok(())
    }

    /// Leaves a function: its frames are no longer active.
    pub fn leave(&mut self, func: u32)
        requires { func < length self.old.running }
        ensures shapes { shapes self.new ≡ shapes self.old }
        ensures functions { length self.new.running ≡ length self.old.running }
        ensures stands { (history : List RunEvent) → StandsFor self.old history
            → StandsFor self.new (RunEvent.Leave func ∷ history) }
    {
        let mark = mark_in(&self.functions, Some(func));
        self.functions[func as usize] = Activity { runs: false, mark };
    }

    /// Stores a value in the cell at an address. The tests come in the order `Kind`, `Dead`, `Bounds`.
    pub fn store(&mut self, at: Value, value: Value) -> Result<(), ValueFault>
        requires { IsStorable value }
        ensures shapes { shapes self.new ≡ shapes self.old }
        ensures functions { length self.new.running ≡ length self.old.running }
        ensures stands { (history : List RunEvent) → StandsFor self.old history
            → Stored self.old self.new history at value result }
        ensures refused { OnErr result (self.new ≡ self.old) }
    {
        let size = bits_in(value);
        match cell_at(&self.frames, &self.functions, at, size) {
            Err(fault) => Err(ValueFault::Run(fault)),
            Ok(cell) => {
                let mark = mark_in(&self.functions, cell.owner);
                write_in(&mut self.frames, cell, mark, value, size);
                Ok(())
            }
        }
    }

    /// What the cell at an address gives. The tests come in the order `Kind`, `Dead`, `Bounds`, and
    /// then those of the bytes, `Uninit` before `Mixed`.
    pub fn load(&self, at: Value, size: u32) -> Result<Value, RunFault>
        requires { IsCellSize size }
        ensures { (history : List RunEvent) → StandsFor self.now history
            → result ≡ load (shapes self.now) history at size }
    {
        let tested = cell_at(&self.frames, &self.functions, at, size);
        load_from(&self.frames, &self.functions, tested, size)
    }
}
