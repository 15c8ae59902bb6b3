//! Calls among functions.

ghost use Rattle.std.specs.Prelude.{◌≡◌, ◌<◌, ◌^◌, ◌++◌, map, length, IfOk, OnOk};
ghost use Rattle.std.specs.List.{flat_map};
ghost use Rattle.alf_program.specs.Tree.{function_of, item_of};
ghost use Rattle.graph_walks.specs.Calls.{calls_of};
ghost use Rattle.alf_check.specs.Checking.{called_by, calls_among};

use crate::count::few;
use crate::lookup::func_number;
use alf_program::{Func, Item, Stmt};
use std::alloc::{AllocError, Global};

/// For each function those that it calls, in the order of the text.
pub fn calls_among(alloc: Global, funcs: &[Func]) -> Result<Vec<Vec<u32>>, AllocError>
    ensures calls { IfOk result
        (λ calls. calls_of calls.items ≡ calls_among (map function_of funcs.now) (map function_of funcs.now)) }
    ensures few { IfOk result (λ calls. length calls.items < 4294967295) }
{
    few(funcs)?;
    let mut calls = Vec::new(alloc);
    for func in funcs {
        let called = called_in(alloc, funcs, &func.items)?;
        calls.push(called)?;
    }
    Ok(calls)
}

// The functions that the items call.
fn called_in(alloc: Global, funcs: &[Func], items: &[Item]) -> Result<Vec<u32>, AllocError>
    requires { length funcs.now < 2 ^ 32 }
    ensures { IfOk result
        (λ called. called.items ≡ flat_map (called_by (map function_of funcs.now)) (map item_of items.now)) }
{
    let mut called = Vec::new(alloc);
    for item in items {
        push_called(&mut called, funcs, item)?;
    }
    Ok(called)
}

// Adds the function that the item calls, if it is a call.
fn push_called(called: &mut Vec<u32>, funcs: &[Func], item: &Item) -> Result<(), AllocError>
    requires { length funcs.now < 2 ^ 32 }
    ensures { OnOk result
        (called.new.items ≡ called.old.items ++ called_by (map function_of funcs.now) (item_of item.now)) }
{
    match item {
        Item::Label(_) => {}
        Item::Stmt(Stmt::Null) => {}
        Item::Stmt(Stmt::Store(_, _)) => {}
        Item::Stmt(Stmt::Jump(_)) => {}
        Item::Stmt(Stmt::Switch(_, _, _)) => {}
        Item::Stmt(Stmt::Call(func, _, _)) => called.push(func_number(funcs, func.bytes()))?,
        Item::Stmt(Stmt::Return(_)) => {}
    }
    Ok(())
}
