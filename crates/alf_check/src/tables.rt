//! Frames, and what they hold at first.

ghost use Rattle.std.specs.Prelude.{◌≡◌, ◌<◌, ◌+◌, ◌^◌, ◌++◌, Some, map, length, Option, IfOk, OnOk};
ghost use Rattle.std.specs.List.{range_with_len};
ghost use Rattle.alf_program.specs.Tree.{allocation_of, function_of, initial_of, program_of};
ghost use Rattle.alf_check.specs.Numbers.{rows_of, rows_from, frame_rows};
ghost use Rattle.alf_check.specs.Numbered.{numbered_inits, export_number};

use crate::count::{few, next_number};
use crate::lookup::placed;
use crate::rows::{FrameRow, InitRow};
use alf_program::{Alloc, Func, Init, Program};
use flow_base::Name;
use std::alloc::{AllocError, Global};

/// The frames of the program.
pub fn frame_rows(alloc: Global, program: &Program) -> Result<Vec<FrameRow>, AllocError>
    ensures rows { IfOk result (λ rows. rows.items ≡ frame_rows (program_of program.now)) }
    ensures few { IfOk result (λ rows. length rows.items < 4294967295) }
{
    let mut rows = Vec::new(alloc);
    push_rows(&mut rows, alloc, None, &program.decls)?;
    push_all_rows(&mut rows, alloc, &program.funcs)?;
    few(&rows)?;
    Ok(rows)
}

// Adds the frames of the functions.
fn push_all_rows(rows: &mut Vec<FrameRow>, alloc: Global, funcs: &[Func]) -> Result<(), AllocError>
    ensures { OnOk result (rows.new.items ≡ rows.old.items ++ rows_from 0 (map function_of funcs.now)) }
{
    let mut owner = 0;
    let mut rest = funcs;
    while let Some((func, others)) = rest.split_first() {
        push_rows(rows, alloc, Some(owner), &func.args)?;
        push_rows(rows, alloc, Some(owner), &func.decls)?;
        owner = next_number(owner)?;
        rest = others;
    }
    Ok(())
}

// Adds the frames of this owner.
fn push_rows(
    rows: &mut Vec<FrameRow>,
    alloc: Global,
    owner: Option<u32>,
    frames: &[Alloc],
) -> Result<(), AllocError>
    ensures { OnOk result (rows.new.items ≡ rows.old.items ++ rows_of owner (map allocation_of frames.now)) }
{
    for frame in frames {
        let name = Name::new(alloc, frame.name.bytes())?;
        let bits = frame.bits;
        rows.push(FrameRow { owner, name, bits })?;
    }
    Ok(())
}

/// So many numbers that follow one another.
pub fn numbers_from(alloc: Global, start: u32, count: u32) -> Result<Vec<u32>, AllocError>
    requires { start + count < 2 ^ 32 }
    ensures { IfOk result (λ numbers. numbers.items ≡ range_with_len start count) }
{
    (start..start + count).collect(alloc)
}

/// What the frames hold at first, of which the first has this number.
pub fn init_rows(
    alloc: Global,
    start: u32,
    frames: &[Alloc],
    inits: &[Init],
) -> Result<Vec<InitRow>, AllocError>
    requires { start + length frames.now < 2 ^ 32 }
    ensures { IfOk result
        (λ numbered. numbered.items ≡ numbered_inits start (map allocation_of frames.now) (map initial_of inits.now)) }
{
    let mut numbered = Vec::new(alloc);
    for init in inits {
        let frame = placed(start, frames, init.name.bytes()).unwrap_or(0);
        numbered.push(InitRow {
            frame,
            offset: init.offset,
            num: init.num,
        })?;
    }
    Ok(numbered)
}

/// The numbers of the exported frames.
pub fn export_numbers(alloc: Global, program: &Program) -> Result<Vec<u32>, AllocError>
    requires { length program.now.decls.items < 2 ^ 32 }
    ensures numbers { IfOk result
        (λ numbers. numbers.items ≡ map (export_number (program_of program.now)) (program_of program.now).exports) }
    ensures few { IfOk result (λ numbers. length numbers.items < 4294967295) }
{
    let mut numbers = Vec::new(alloc);
    for name in &program.exports {
        numbers.push(placed(0, &program.decls, name.bytes()).unwrap_or(0))?;
    }
    few(&numbers)?;
    Ok(numbers)
}
