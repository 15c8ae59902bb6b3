//! The size rules of items.

ghost use Rattle.std.specs.Prelude.{◌≡◌, map};
ghost use Rattle.std.specs.Option.{option_map};
ghost use Rattle.alf_program.specs.Tree.{allocation_of, expression_of, item_of, function_of, program_of};
ghost use Rattle.alf_faults.specs.Scopes.{IsScope};
ghost use Rattle.alf_faults.specs.Sizes.{targets_have, targets_fit, arguments_fit, agrees_behind, call_fits};
ghost use Rattle.alf_faults.specs.Sizes.{breaks_calls, return_fits, entry_fits};

use crate::findings::is_exactly;
use crate::item_places::{ItemPlace, is_before};
use crate::places::function_named;
use crate::returns::{FirstReturn, agrees, is_breached};
use crate::scopes::Scope;
use crate::term_sizes::{is_bytes, is_size, return_size, same_size, term_size};
use alf_program::{Alloc, Expr, Item, Num, Program, Stmt};
use flow_base::Name;

/// Whether item `place` of the function keeps the size rules.
pub fn entry_fits(scope: &Scope, place: usize, item: &Item) -> bool
    requires { IsScope scope.now }
    ensures { result ≡ entry_fits (program_of scope.now.program.now) scope.now.place
        (function_of scope.now.func.now) place (item_of item.now) }
{
    match item {
        Item::Label(_) => true,
        Item::Stmt(Stmt::Null) => true,
        Item::Stmt(Stmt::Store(at, value)) => {
            is_size(32, term_size(at)) && is_bytes(term_size(value))
        }
        Item::Stmt(Stmt::Jump(_)) => true,
        Item::Stmt(Stmt::Switch(value, targets, _)) => targets_fit(term_size(value), targets),
        Item::Stmt(Stmt::Call(label, args, result)) => {
            call_fits(scope, place, label, args, result.is_some())
        }
        Item::Stmt(Stmt::Return(value)) => return_fits(scope, place, value),
    }
}

// Whether there is a size, and each target has it.
fn targets_fit(size: Option<u32>, targets: &[(Num, Name)]) -> bool
    ensures { result ≡ targets_fit size targets.now }
{
    match size {
        Some(size) => targets_have(size, targets),
        None => false,
    }
}

// Whether each target has the size.
fn targets_have(size: u32, targets: &[(Num, Name)]) -> bool
    ensures { result ≡ targets_have size targets.now }
{
    for target in targets {
        if target.0.size != size {
            return false;
        }
    }
    true
}

// Whether a call that is item `place` fits the function that it calls.
#[tactic(auto, using(crate::proofs::Reading::read_of))]
fn call_fits(scope: &Scope, place: usize, label: &Name, args: &[Expr], has_result: bool) -> bool
    requires { IsScope scope.now }
    ensures { result ≡ call_fits (program_of scope.now.program.now) scope.now.place place label.now
        (map expression_of args.now) has_result }
{
    let funcs = &scope.program.funcs;
    let Some(called) = function_named(funcs, label.bytes()) else {
        return false;
    };
    arguments_fit(&funcs[called].args, args)
        && agrees_behind(
            called,
            scope.returns[called],
            ItemPlace {
                func: scope.place,
                item: place,
            },
            has_result,
        )
}

// Whether the arguments are as many as the frames, each of its frame's size.
fn arguments_fit(frames: &[Alloc], args: &[Expr]) -> bool
    ensures { result ≡ arguments_fit (map allocation_of frames.now) (map expression_of args.now) }
{
    let mut frames = frames;
    for arg in args {
        let Some((frame, others)) = frames.split_first() else {
            return false;
        };
        if !is_size(frame.bits, term_size(arg)) {
            return false;
        }
        frames = others;
    }
    frames.is_empty()
}

// Whether a call agrees with the first return of function `called`, where that stands before it.
fn agrees_behind(
    called: usize,
    first: Option<FirstReturn>,
    call: ItemPlace,
    has_result: bool,
) -> bool
    ensures { result ≡ agrees_behind called first call.func call.item has_result }
{
    match first {
        Some(first) => {
            let found = ItemPlace {
                func: called,
                item: first.item,
            };
            !is_before(found, call) || agrees(has_result, first)
        }
        None => true,
    }
}

// Whether a return that is item `place` gives the size of the function's first return, and agrees
// with the calls before it where it is that first return.
fn return_fits(scope: &Scope, place: usize, value: &Option<Expr>) -> bool
    requires { IsScope scope.now }
    ensures { result ≡ return_fits (program_of scope.now.program.now) scope.now.place
        (function_of scope.now.func.now) place (option_map expression_of value.now) }
{
    match scope.first {
        Some(first) => {
            same_size(first.size, return_size(value))
                && !breaks_calls(
                    scope.program,
                    &scope.func.name,
                    ItemPlace {
                        func: scope.place,
                        item: place,
                    },
                    first,
                )
        }
        None => false,
    }
}

// Whether the item of the function of this name is this return, the function is the first of its
// name, and a call before it does not agree with it.
fn breaks_calls(program: &Program, name: &Name, at: ItemPlace, first: FirstReturn) -> bool
    ensures { result ≡ breaks_calls (program_of program.now) at.func name.now at.item first }
{
    first.item == at.item
        && is_exactly(at.func, function_named(&program.funcs, name.bytes()))
        && is_breached(&program.funcs, name.bytes(), first, at.func)
}
