//! How many statements blocks have.

ghost use Rattle.std.specs.Prelude.{◌≡◌, ◌<◌, ◌≤◌, ◌*◌, ◌^◌, length, take, sum_by};
ghost use Rattle.alf_check.specs.CheckedPrograms.{blocks_at, block_of, seen};
ghost use Rattle.code_layout.specs.Layouts.{statements_in, statements_of, all_statements};

use alf_check::{Block, BlockEnd, Checked};

/// The most statements that are laid out.
pub const MOST_STATEMENTS: u128 = 65_536;

/// The statements of a block, the one that ends it among them.
pub(crate) fn statements_in(block: &Block) -> u64
    ensures { result ≡ statements_in (block_of block.now) }
{
    let own = block.stmts.len() as u64;
    match &block.end {
        BlockEnd::Fall(_) => own,
        BlockEnd::Jump(_) => own + 1,
        BlockEnd::Switch(_, _, _) => own + 1,
        BlockEnd::Call { .. } => own + 1,
        BlockEnd::Return(_) => own + 1,
    }
}

/// The statements of the blocks of a function before this one.
pub(crate) fn statements_before_block(checked: &Checked, func: u32, block: u32) -> u128
    requires func { func < length (seen checked.now).funcs }
    requires block { block ≤ length (blocks_at (seen checked.now) func) }
    ensures statements { result ≡ sum_by statements_in (take block (blocks_at (seen checked.now) func)) }
    ensures low { result ≤ block * 2 ^ 64 }
{
    let mut total: u128 = 0;
    for b in 0..block {
        total += u128::from(statements_in(checked.block(func, b)));
    }
    total
}

/// The statements of the functions before this one.
pub(crate) fn statements_before_function(checked: &Checked, func: u32) -> u128
    requires { func ≤ length (seen checked.now).funcs }
    ensures statements { result ≡ sum_by statements_of (take func (seen checked.now).funcs) }
    ensures low { result ≤ func * 2 ^ 96 }
{
    let mut total: u128 = 0;
    for f in 0..func {
        total += statements_before_block(checked, f, checked.block_count(f));
    }
    total
}

/// The statements of all blocks of all functions.
pub fn statement_count(checked: &Checked) -> u128
    ensures { result ≡ all_statements (seen checked.now) }
{
    statements_before_function(checked, checked.func_count())
}
