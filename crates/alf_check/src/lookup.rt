//! Numbers of the names in a function.

ghost use Rattle.std.specs.Prelude.{◌≡◌, ◌<◌, ◌+◌, ◌^◌, map, length};
ghost use Rattle.alf_program.specs.Tree.{allocation_of, item_of, function_of};
ghost use Rattle.alf_check.specs.Cut.{numbers_along};
ghost use Rattle.alf_check.specs.Numbers.{placed, func_number, block_number};

use alf_faults::{Labels, frame_named, function_named};
use alf_program::{Alloc, Func};

/// What stands for the names in a function: the global frames, its arguments and its declarations
/// with the numbers of the first of each, the functions, the labels, and for each item of the
/// function the number of its block.
#[derive(Drop)]
pub struct Names<'a> {
    pub globals: &'a [Alloc],
    pub args: &'a [Alloc],
    pub decls: &'a [Alloc],
    pub first_arg: u32,
    pub first_decl: u32,
    pub funcs: &'a [Func],
    pub labels: Labels<'a>,
    pub blocks: Vec<u32>,
    ghost few_globals: { length globals.now < 2 ^ 32 },
    ghost few_args: { first_arg + length args.now < 2 ^ 32 },
    ghost few_decls: { first_decl + length decls.now < 2 ^ 32 },
    ghost few_funcs: { length funcs.now < 2 ^ 32 },
    ghost numbered: { blocks.items ≡ numbers_along 0 (map item_of labels) },
}

impl<'a> Names<'a> {
    ghost use Rattle.std.specs.Prelude.{◌≡◌};
    ghost use Rattle.alf_check.specs.Names.{numbers_of};

    /// The number of a frame.
    pub fn frame(&self, name: &[u8]) -> u32
        ensures { result ≡ (numbers_of self.now).frame name.now }
    {
        if let Some(number) = placed(0, self.globals, name) {
            return number;
        }
        if let Some(number) = placed(self.first_arg, self.args, name) {
            return number;
        }
        placed(self.first_decl, self.decls, name).unwrap_or(0)
    }

    /// The number of a function.
    pub fn func(&self, name: &[u8]) -> u32
        ensures { result ≡ (numbers_of self.now).func name.now }
    {
        func_number(self.funcs, name)
    }

    /// The number of the block in which a label stands.
    pub fn block(&self, label: &[u8]) -> u32
        ensures { result ≡ (numbers_of self.now).block label.now }
    {
        block_number(&self.labels, &self.blocks, label)
    }
}

// The number of the block in which a label stands, by the number of each item's block.
#[tactic(auto, using(crate::proofs::Blocks::along_low, crate::proofs::Blocks::block_at, crate::proofs::Blocks::block_none))]
fn block_number(labels: &Labels<'_>, blocks: &[u32], label: &[u8]) -> u32
    requires { blocks.now ≡ numbers_along 0 (map item_of labels.now) }
    ensures { result ≡ block_number (map item_of labels.now) label.now }
{
    match labels.find(label) {
        Some(place) => blocks[place],
        None => 0,
    }
}

/// The number of the first of the frames that has the name, where the first of all has this one.
pub fn placed(start: u32, frames: &[Alloc], name: &[u8]) -> Option<u32>
    requires { start + length frames.now < 2 ^ 32 }
    ensures { result ≡ placed start (map allocation_of frames.now) name.now }
{
    match frame_named(frames, name) {
        Some(place) => Some(start + place as u32),
        None => None,
    }
}

/// The number of the function of this name.
pub fn func_number(funcs: &[Func], name: &[u8]) -> u32
    requires { length funcs.now < 2 ^ 32 }
    ensures { result ≡ func_number (map function_of funcs.now) name.now }
{
    match function_named(funcs, name) {
        Some(place) => place as u32,
        None => 0,
    }
}
