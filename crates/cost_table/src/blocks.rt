//! Blocks that an entry of costs may be of.

ghost use Rattle.std.specs.Prelude.{◌≡◌, ◌<◌, IfSome, IfNone, length};
ghost use Rattle.std.specs.Str.{bytes_eq};
ghost use Rattle.alf_check.specs.CheckedPrograms.{blocks_at, seen};
ghost use Rattle.cost_table.specs.Costs.{below, function_named, IsBlock, HasBlock};

use crate::cost_entry::{BlockCost, below};
use alf_check::{Checked, FuncRow};

// The number of the function of this name.
pub fn function_named(checked: &Checked, name: &str) -> Option<u32>
    ensures { result ≡ function_named (seen checked.now) name.now }
{
    for func in 0..checked.func_count() {
        if is_named(checked.func(func), name) {
            return Some(func);
        }
    }
    None
}

// The function has this name.
fn is_named(function: &FuncRow, name: &str) -> bool
    ensures { result ≡ bytes_eq function.now.name name.now }
{
    function.name.bytes() == name.as_bytes()
}

// The number as that of a block of the function.
fn block_of(checked: &Checked, func: u32, number: i64) -> Option<u32>
    requires { func < length (seen checked.now).funcs }
    ensures { result ≡ below (length (blocks_at (seen checked.now) func)) number }
{
    below(number, i64::from(checked.block_count(func)))
}

// The function and the block that an entry names.
pub fn block_named(checked: &Checked, name: &str, told: BlockCost) -> Option<(u32, u32)>
    ensures some { IfSome result (λ at. IsBlock (seen checked.now) (name.now, told) at.0 at.1) }
    ensures none { IfNone result (¬ HasBlock (seen checked.now) (name.now, told)) }
{
    let Some(func) = function_named(checked, name) else {
        return None;
    };
    match block_of(checked, func, told.block) {
        Some(block) => Some((func, block)),
        None => None,
    }
}
