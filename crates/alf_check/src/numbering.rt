//! Functions with numbers in place of names.

ghost use Rattle.std.specs.Prelude.{◌≡◌, ◌<◌, ◌+◌, map, length, All, IfOk};
ghost use Rattle.alf_program.specs.Tree.{program_of, function_of};
ghost use Rattle.alf_program.specs.Writable.{frames_of};
ghost use Rattle.alf_check.specs.Blocks.{blocks_of};
ghost use Rattle.alf_check.specs.Numbers.{numbers_in};
ghost use Rattle.alf_check.specs.Numbered.{numbered_blocks, numbered_function, functions_from};
ghost use Rattle.alf_check.specs.CheckedPrograms.{NumberedFunction, block_of, function_in};
ghost use Rattle.alf_check.specs.Rows.{IsRow};

use crate::body::blocks;
use crate::cut::numbers_along;
use crate::lookup::Names;
use crate::rows::{Block, FuncParts, FuncRow};
use crate::tables::{init_rows, numbers_from};
use alf_faults::Labels;
use alf_program::{Func, Program};
use flow_base::Name;
use std::alloc::{AllocError, Global};

/// The functions in their order.
pub fn all_functions(alloc: Global, program: &Program) -> Result<Vec<FuncParts>, AllocError>
    requires frames { length (frames_of (program_of program.now)) < 4294967295 }
    requires funcs { length program.now.funcs.items < 4294967295 }
    ensures are { IfOk result (λ functions. map function_in functions.items
        ≡ functions_from (program_of program.now) (length (program_of program.now).decls)
        (program_of program.now).funcs) }
    ensures few { IfOk result
        (λ functions. All (λ (function : NumberedFunction). length function.blocks < 4294967295)
        (map function_in functions.items)) }
{
    let mut functions = Vec::new(alloc);
    let mut first = program.decls.len() as u32;
    let mut rest = program.funcs.as_slice();
    while let Some((func, others)) = rest.split_first() {
        functions.push(function(alloc, program, first, func)?)?;
        first += (func.args.len() + func.decls.len()) as u32;
        rest = others;
    }
    Ok(functions)
}

// The function whose first frame has this number.
fn function(
    alloc: Global,
    program: &Program,
    first: u32,
    func: &Func,
) -> Result<FuncParts, AllocError>
    requires globals { length program.now.decls.items < 4294967295 }
    requires funcs { length program.now.funcs.items < 4294967295 }
    requires frames { first + (length func.now.args.items + length func.now.decls.items) < 4294967295 }
    ensures is { IfOk result
        (λ parts. function_in parts ≡ numbered_function (program_of program.now) first (function_of func.now)) }
    ensures few { IfOk result (λ parts. length (function_in parts).blocks < 4294967295) }
{
    let row = row(alloc, first, func)?;
    let blocks = func_blocks(alloc, program, first, func)?;
    Ok(FuncParts { row, blocks })
}

// Its name, its frames and what they hold at first.
fn row(alloc: Global, first: u32, func: &Func) -> Result<FuncRow, AllocError>
    requires { first + (length func.now.args.items + length func.now.decls.items) < 4294967295 }
    ensures { IfOk result (λ row. IsRow first (function_of func.now) row) }
{
    let name = Name::new(alloc, func.name.bytes())?;
    let count = func.args.len() as u32;
    let args = numbers_from(alloc, first, count)?;
    let frames = numbers_from(alloc, first, count + func.decls.len() as u32)?;
    let inits = init_rows(alloc, first + count, &func.decls, &func.inits)?;
    Ok(FuncRow {
        name,
        args,
        frames,
        inits,
    })
}

// Its blocks.
fn func_blocks(
    alloc: Global,
    program: &Program,
    first: u32,
    func: &Func,
) -> Result<Vec<Block>, AllocError>
    requires globals { length program.now.decls.items < 4294967295 }
    requires funcs { length program.now.funcs.items < 4294967295 }
    requires frames { first + (length func.now.args.items + length func.now.decls.items) < 4294967295 }
    ensures are { IfOk result (λ blocks. map block_of blocks.items
        ≡ numbered_blocks (numbers_in (program_of program.now) first (function_of func.now)) 0
        (blocks_of (function_of func.now).items)) }
    ensures few { IfOk result (λ blocks. length blocks.items < 4294967295) }
{
    let labels = Labels::new(alloc, &func.items)?;
    let along = numbers_along(alloc, &func.items)?;
    let names = Names {
        globals: &program.decls,
        args: &func.args,
        decls: &func.decls,
        first_arg: first,
        first_decl: first + func.args.len() as u32,
        funcs: &program.funcs,
        labels,
        blocks: along,
    };
    blocks(alloc, &names, &func.items)
}
