//! Two memories of one program in which the same functions run.
//!
//! Each call makes sure that the call of the memory may be made. Where it may not be, nothing is done.

ghost use Rattle.std.specs.Prelude.{OnOk, IfOk};
ghost use Rattle.transfer_tests.specs.Sides.{AreReady};

use crate::values::{is_cell, is_value};
use abstract_memory::AMem;
use alf_check::Checked;
use domain_core::{FaultSet, Lattice};
use interval_congruence::Strided;
use pointer_domain::AVal;
use std::alloc::{AllocError, Global};

/// The memory that calls change, one beside it, and how many functions the program has.
#[derive(Drop)]
pub(crate) struct Sides<'a> {
    pub a: AMem<'a>,
    pub b: AMem<'a>,
    pub functions: u32,
}

/// Two memories of the program, before each event.
pub(crate) fn fresh<'a>(alloc: Global, checked: &'a Checked) -> Result<Sides<'a>, AllocError>
    ensures { IfOk result (λ sides. AreReady sides.functions sides.a sides.b) }
{
    let functions = checked.func_count();
    let a = AMem::new(alloc, checked)?;
    let b = AMem::new(alloc, checked)?;
    Ok(Sides { a, b, functions })
}

/// A function is entered in both.
pub(crate) fn enter(alloc: Global, sides: &mut Sides<'_>, func: u32) -> Result<(), AllocError>
    requires { AreReady sides.old.functions sides.old.a sides.old.b }
    ensures { OnOk result (AreReady sides.new.functions sides.new.a sides.new.b) }
{
    if func < sides.functions {
        sides.a.enter(alloc, func)?;
        sides.b.enter(alloc, func)?;
    }
    Ok(())
}

/// A function is left in both.
pub(crate) fn leave(sides: &mut Sides<'_>, func: u32)
    requires { AreReady sides.old.functions sides.old.a sides.old.b }
    ensures { AreReady sides.new.functions sides.new.a sides.new.b }
{
    if func < sides.functions {
        sides.a.leave(func);
        sides.b.leave(func);
    }
}

/// What a load gives.
pub(crate) fn load(
    alloc: Global,
    sides: &Sides<'_>,
    at: &AVal,
    size: u32,
) -> Result<(Option<AVal>, FaultSet), AllocError>
    requires { AreReady sides.now.functions sides.now.a sides.now.b }
{
    if is_value(at, 32) && is_cell(size) {
        sides.a.load(alloc, at, size)
    } else {
        Ok((None, FaultSet::none()))
    }
}

/// A store.
pub(crate) fn store(
    alloc: Global,
    sides: &mut Sides<'_>,
    at: &AVal,
    value: &AVal,
    size: u32,
) -> Result<(bool, FaultSet), AllocError>
    requires { AreReady sides.old.functions sides.old.a sides.old.b }
    ensures { OnOk result (AreReady sides.new.functions sides.new.a sides.new.b) }
{
    if is_value(at, 32) && is_cell(size) && is_value(value, size) {
        let told = sides.a.store(alloc, at, value, size)?;
        return Ok(told);
    }
    Ok((false, FaultSet::none()))
}

/// Whether the cell is there.
pub(crate) fn has_cell(sides: &Sides<'_>, frame: u32, offset: u32, size: u32) -> bool {
    size <= 64 && sides.a.has_cell(frame, offset, size)
}

/// A cell that is there is pinned.
pub(crate) fn pin(
    alloc: Global,
    sides: &mut Sides<'_>,
    cell: (u32, u32),
    value: Strided,
) -> Result<(), AllocError>
    requires { AreReady sides.old.functions sides.old.a sides.old.b }
    ensures { OnOk result (AreReady sides.new.functions sides.new.a sides.new.b) }
{
    let size = value.size();
    let (frame, offset) = cell;
    if is_cell(size) && sides.a.has_cell(frame, offset, size) {
        sides.a.pin(alloc, frame, offset, size, value)?;
    }
    Ok(())
}

/// The second becomes a copy of the first.
pub(crate) fn copy(alloc: Global, sides: &mut Sides<'_>) -> Result<(), AllocError>
    requires { AreReady sides.old.functions sides.old.a sides.old.b }
    ensures { OnOk result (AreReady sides.new.functions sides.new.a sides.new.b) }
{
    sides.b = sides.a.copy(alloc)?;
    Ok(())
}

/// Each becomes a copy of the other.
pub(crate) fn swap(alloc: Global, sides: &mut Sides<'_>) -> Result<(), AllocError>
    requires { AreReady sides.old.functions sides.old.a sides.old.b }
    ensures { OnOk result (AreReady sides.new.functions sides.new.a sides.new.b) }
{
    let first = sides.a.copy(alloc)?;
    let second = sides.b.copy(alloc)?;
    sides.a = second;
    sides.b = first;
    Ok(())
}

/// The first becomes the join of both.
pub(crate) fn join(alloc: Global, sides: &mut Sides<'_>) -> Result<(), AllocError>
    requires { AreReady sides.old.functions sides.old.a sides.old.b }
    ensures { OnOk result (AreReady sides.new.functions sides.new.a sides.new.b) }
{
    let whole = sides.a.join(alloc, &sides.b)?;
    sides.a = whole;
    Ok(())
}
