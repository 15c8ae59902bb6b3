//! Checked programs and their look-ups.

ghost use Rattle.std.specs.Prelude.{◌≡◌, ◌<◌, [], length, All, IfOk, slice_get, Some, None};
ghost use Rattle.std.specs.Coded.{codes};
ghost use Rattle.alf_program.specs.Tree.{program_of};
ghost use Rattle.alf_program.specs.Writable.{IsWritable};
ghost use Rattle.alf_check.specs.Checking.{Passes};
ghost use Rattle.alf_check.specs.Kept.{KeepsBlock, KeepsExport, KeepsFrames, InitFits, IsKept};
ghost use Rattle.alf_check.specs.Lookups.{AreParts, IsFunction};
ghost use Rattle.alf_check.specs.Numbered.{numbered};
ghost use Rattle.alf_check.specs.CheckedPrograms.{CheckedParts, blocks_at, seen, block_of};
ghost use Rattle.alf_check.specs.contracts.rows.Term as e;

use crate::count::few;
use crate::lookup::func_number;
use crate::numbering::all_functions;
use crate::rows::{Block, FrameRow, FuncParts, FuncRow, InitRow};
use crate::tables::{export_numbers, frame_rows, init_rows};
use alf_faults::no_fault_is_by_parts;
use alf_program::Program;
use std::alloc::{AllocError, Global};
use std::marker::Model;

/// A program with numbers in place of names.
///
/// Contracts speak of the program that it is `seen` as, and each look-up tells what is kept of its
/// answer. No look-up takes memory.
#[derive(Drop)]
pub struct Checked {
    frames: Vec<FrameRow>,
    funcs: Vec<FuncParts>,
    inits: Vec<InitRow>,
    exports: Vec<u32>,
    root: u32,
}

impl Model for Checked {
    ghost Value = { CheckedParts };

    ghost coded = { Prim.hlevel (codes, e.the_row.coded) };

    ghost view = { λ checked. record {
      frames = checked.frames.items;
      funcs = checked.funcs.items;
      inits = checked.inits.items;
      exports = checked.exports.items;
      root = checked.root;
    } };

    ghost invariant = { λ checked. IsKept (seen (record {
      frames = checked.frames.items;
      funcs = checked.funcs.items;
      inits = checked.inits.items;
      exports = checked.exports.items;
      root = checked.root;
    })) };
}

impl Checked {
    /// What every checked program keeps, among it that some text can spell it.
    pub fn keeps(&self)
        ensures { IsKept (seen self.now) }
    {
        let _root = self.root;
    }

    /// The frames by their numbers.
    pub fn frames(&self) -> &[FrameRow]
        ensures frames { result.now ≡ (seen self.now).frames }
        ensures keep { KeepsFrames (seen self.now) }
    {
        &self.frames
    }

    /// How many functions there are.
    pub fn func_count(&self) -> u32
        ensures { result ≡ length (seen self.now).funcs }
    {
        self.funcs.len() as u32
    }

    /// The function of this number.
    pub fn func(&self, func: u32) -> &FuncRow
        requires { func < length (seen self.now).funcs }
        ensures { IsFunction (seen self.now) func result.now }
    {
        &self.parts(func).row
    }

    /// How many blocks a function has.
    pub fn block_count(&self, func: u32) -> u32
        requires { func < length (seen self.now).funcs }
        ensures { result ≡ length (blocks_at (seen self.now) func) }
    {
        self.parts(func).blocks.len() as u32
    }

    /// The block of this number in a function.
    pub fn block(&self, func: u32, block: u32) -> &Block
        requires func { func < length (seen self.now).funcs }
        requires block { block < length (blocks_at (seen self.now) func) }
        ensures at { slice_get (blocks_at (seen self.now) func) block ≡ Some (block_of result.now) }
        ensures keeps { KeepsBlock (seen self.now) func block (block_of result.now) }
    {
        nth(&self.parts(func).blocks, block)
    }

    // The parts of the function of this number.
    fn parts(&self, func: u32) -> &FuncParts
        requires { func < length (seen self.now).funcs }
        ensures { AreParts (seen self.now) func result.now }
    {
        nth(&self.funcs, func)
    }

    /// What the global frames hold at first.
    pub fn inits(&self) -> &[InitRow]
        ensures inits { result.now ≡ (seen self.now).inits }
        ensures fit { All (InitFits (seen self.now).frames None) result.now }
    {
        &self.inits
    }

    /// The frames that are exported, in their order.
    pub fn exports(&self) -> &[u32]
        ensures exports { result.now ≡ (seen self.now).exports }
        ensures keep { All (KeepsExport (seen self.now).frames) result.now }
    {
        &self.exports
    }

    /// The function that the program starts with.
    pub fn root(&self) -> u32
        ensures root { result ≡ (seen self.now).root }
        ensures there { result < length (seen self.now).funcs }
    {
        self.root
    }
}

// The member of this number.
fn nth<T>(list: &[T], number: u32) -> &T
    requires { number < length list.now }
    ensures { slice_get list.now number ≡ Some result.now }
{
    &list[number as usize]
}

/// The program with numbers in place of names, which starts with the function of this name.
///
/// The program is one that passes the checks, as `check` finds or as is known of a lowered one. So nothing is looked
/// for, and want of memory is all that can stop it. Takes memory for the answer.
pub fn number(alloc: Global, program: &Program, root: &[u8]) -> Result<Checked, AllocError>
    requires writable { IsWritable (program_of program.now) }
    requires passes { Passes (program_of program.now) root.now }
    ensures { IfOk result (λ checked. seen checked ≡ numbered (program_of program.now) root.now) }
{
    no_fault_is_by_parts();
    few(&program.funcs)?;
    let frames = frame_rows(alloc, program)?;
    let funcs = all_functions(alloc, program)?;
    let inits = init_rows(alloc, 0, &program.decls, &program.inits)?;
    let exports = export_numbers(alloc, program)?;
    Ok(Checked {
        frames,
        funcs,
        inits,
        exports,
        root: func_number(&program.funcs, root),
    })
}
