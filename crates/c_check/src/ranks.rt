//! Ranks of functions, or a cycle of calls.

ghost use Rattle.std.specs.Prelude.{◌≡◌, ◌<◌, ◌^◌, ◌↔◌, IsTrue, map, slice_index_or, IfOk, IfErr};
ghost use Rattle.c_unit.specs.Units.{unit_of};
ghost use Rattle.c_rules.specs.Names.{text_at};
ghost use Rattle.c_rules.specs.Units.{definitions};
ghost use Rattle.c_rules.specs.Recursion.{calls_of};
ghost use Rattle.graph_walks.specs.Calls.{IsRanked, IsFaultOf};

use crate::tables::call_table;
use c_scopes::Definitions;
use c_unit::CUnit;
use flow_base::Name;
use graph_walks::{CallFault, call_ranks};
use std::alloc::{AllocError, Global};

// Whether 32 bits number so many.
fn are_few(count: usize) -> bool
    ensures { IsTrue result ↔ count < 2 ^ 32 }
{
    count <= u32::MAX as usize
}

/// A rank for each function that is defined, so that each call leads from a higher rank to a lower one, or the
/// first cycle of calls. Functions are counted by the order of their definitions, and may be 4,294,967,295 at most;
/// more are told as want of memory.
pub fn function_ranks(
    alloc: Global,
    functions: &Definitions<'_>,
    unit: &CUnit,
) -> Result<Vec<u32>, CallFault>
    requires words { functions.now.words ≡ (unit_of unit.now).words }
    requires names { functions.now.names ≡ definitions (unit_of unit.now).externals }
    ensures ranked { IfOk result (λ ranks. IsRanked (calls_of (unit_of unit.now)) ranks.items) }
    ensures cycle { IfErr result (λ fault. IsFaultOf (calls_of (unit_of unit.now)) fault) }
{
    if !are_few(functions.names().len()) {
        return Err(CallFault::Memory);
    }
    match call_table(alloc, functions, &unit.externals) {
        Ok(rows) => call_ranks(alloc, &rows),
        Err(_) => Err(CallFault::Memory),
    }
}

/// The names of functions by their numbers.
pub fn names_along(
    alloc: Global,
    functions: &Definitions<'_>,
    path: &[u32],
) -> Result<Vec<Name>, AllocError>
    ensures { IfOk result
        (λ names. names.items
        ≡ map (λ n. text_at functions.now.words (slice_index_or functions.now.names n 0)) path.now) }
{
    let mut names = Vec::new(alloc);
    for number in path {
        names.push(Name::new(alloc, functions.text_of(*number))?)?;
    }
    Ok(names)
}
