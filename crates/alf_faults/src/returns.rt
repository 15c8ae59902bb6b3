//! Returns of a function, and calls that must agree with the first of them.

ghost use Rattle.std.specs.Prelude.{◌≡◌, map, IfOk};
ghost use Rattle.alf_program.specs.Tree.{item_of, function_of};
ghost use Rattle.alf_faults.specs.Returns.{return_of, first_return, returns_of, agrees, is_disagreeing, has_breach};
ghost use Rattle.alf_faults.specs.Returns.{is_breached};

use crate::item_places::{ItemPlace, is_before};
use crate::term_sizes::{is_bytes, return_size};
use alf_program::{Func, Item, Stmt};
use std::alloc::{AllocError, Global};

/// A return: its item's number, whether it has an expression, and the size of what it gives.
#[derive(Clone, Copy, Debug, Drop)]
pub struct FirstReturn {
    pub item: usize,
    pub has_value: bool,
    /// 0 where there is no expression, and None where the expression breaks a size rule.
    pub size: Option<u32>,
}

/// The first return of these items.
pub fn first_return(items: &[Item]) -> Option<FirstReturn>
    ensures { result ≡ first_return (map item_of items.now) }
{
    for (place, item) in items.iter().enumerate() {
        if let Some(found) = return_of(place, item) {
            return Some(found);
        }
    }
    None
}

// The return that the item is, if it is one.
fn return_of(place: usize, item: &Item) -> Option<FirstReturn>
    ensures { result ≡ return_of place (item_of item.now) }
{
    match item {
        Item::Label(_) => None,
        Item::Stmt(Stmt::Null) => None,
        Item::Stmt(Stmt::Store(_, _)) => None,
        Item::Stmt(Stmt::Jump(_)) => None,
        Item::Stmt(Stmt::Switch(_, _, _)) => None,
        Item::Stmt(Stmt::Call(_, _, _)) => None,
        Item::Stmt(Stmt::Return(value)) => Some(FirstReturn {
            item: place,
            has_value: value.is_some(),
            size: return_size(value),
        }),
    }
}

/// The first return of each function.
pub fn first_returns(alloc: Global, funcs: &[Func]) -> Result<Vec<Option<FirstReturn>>, AllocError>
    ensures { IfOk result (λ returns. returns.items ≡ returns_of funcs.now) }
{
    let mut returns = Vec::new(alloc);
    for func in funcs {
        returns.push(first_return(&func.items))?;
    }
    Ok(returns)
}

/// Whether a call with or without a result agrees with the return.
pub fn agrees(has_result: bool, first: FirstReturn) -> bool
    ensures { result ≡ agrees has_result first }
{
    if has_result {
        first.has_value && is_bytes(first.size)
    } else {
        !first.has_value
    }
}

/// Whether a call that stands before this return of function `place` does not agree with it.
pub fn is_breached(funcs: &[Func], name: &[u8], first: FirstReturn, place: usize) -> bool
    ensures { result ≡ is_breached (map function_of funcs.now) name.now first place }
{
    for (caller, func) in funcs.iter().enumerate() {
        if has_breach(name, first, place, caller, &func.items) {
            return true;
        }
    }
    false
}

// Whether one of the items of the caller is such a call.
fn has_breach(name: &[u8], first: FirstReturn, place: usize, caller: usize, items: &[Item]) -> bool
    ensures { result ≡ has_breach name.now first place caller (map item_of items.now) }
{
    for (at, item) in items.iter().enumerate() {
        let call = ItemPlace {
            func: caller,
            item: at,
        };
        let found = ItemPlace {
            func: place,
            item: first.item,
        };
        if is_before(call, found) && is_disagreeing(name, first, item) {
            return true;
        }
    }
    false
}

// Whether the item is a call of this name that does not agree with the return.
fn is_disagreeing(name: &[u8], first: FirstReturn, item: &Item) -> bool
    ensures { result ≡ is_disagreeing name.now first (item_of item.now) }
{
    match item {
        Item::Label(_) => false,
        Item::Stmt(Stmt::Null) => false,
        Item::Stmt(Stmt::Store(_, _)) => false,
        Item::Stmt(Stmt::Jump(_)) => false,
        Item::Stmt(Stmt::Switch(_, _, _)) => false,
        Item::Stmt(Stmt::Call(label, _, result)) => {
            label.bytes() == name && !agrees(result.is_some(), first)
        }
        Item::Stmt(Stmt::Return(_)) => false,
    }
}
