//! The blocks of a function.

ghost use Rattle.std.specs.Prelude.{◌≡◌, ◌<◌, map, length, IfOk};
ghost use Rattle.alf_program.specs.Tree.{item_of};
ghost use Rattle.alf_check.specs.Blocks.{blocks_of};
ghost use Rattle.alf_check.specs.CheckedPrograms.{block_of};
ghost use Rattle.alf_check.specs.Numbered.{numbered_block, numbered_blocks};
ghost use Rattle.alf_check.specs.Names.{numbers_of};

use crate::count::{few, next_number};
use crate::cut::split_block;
use crate::endings::end;
use crate::lookup::Names;
use crate::rows::Block;
use crate::statements::acts;
use alf_program::Item;
use std::alloc::{AllocError, Global};

/// The blocks of the items.
pub fn blocks(alloc: Global, names: &Names<'_>, items: &[Item]) -> Result<Vec<Block>, AllocError>
    ensures are { IfOk result
        (λ blocks. map block_of blocks.items
        ≡ numbered_blocks (numbers_of names.now) 0 (blocks_of (map item_of items.now))) }
    ensures few { IfOk result (λ blocks. length blocks.items < 4294967295) }
{
    let mut blocks = Vec::new(alloc);
    let mut number = 0;
    let mut rest = items;
    while !rest.is_empty() {
        let (front, others) = split_block(rest);
        number = next_number(number)?;
        let block = block(alloc, names, number, front)?;
        blocks.push(block)?;
        rest = others;
    }
    few(&blocks)?;
    Ok(blocks)
}

// The block of these items, where the next one has this number.
fn block(alloc: Global, names: &Names<'_>, next: u32, items: &[Item]) -> Result<Block, AllocError>
    ensures { IfOk result
        (λ block. block_of block ≡ numbered_block (numbers_of names.now) next (map item_of items.now)) }
{
    let stmts = acts(alloc, names, items)?;
    let end = end(alloc, names, next, items)?;
    Ok(Block { stmts, end })
}
