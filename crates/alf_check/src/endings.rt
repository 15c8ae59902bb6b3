//! How blocks end.

ghost use Rattle.std.specs.Prelude.{◌≡◌, map, IfOk};
ghost use Rattle.std.specs.Option.{option_map};
ghost use Rattle.alf_program.specs.Tree.{Do, item_of, expression_of, with_frames};
ghost use Rattle.alf_program.specs.Tree as text;
ghost use Rattle.alf_check.specs.CheckedPrograms.{Switch, end_of};
ghost use Rattle.alf_check.specs.Numbered.{numbered_targets, numbered_end, end_by};
ghost use Rattle.alf_check.specs.Names.{numbers_of};

use crate::expressions::{term, terms};
use crate::lookup::Names;
use crate::rows::BlockEnd;
use alf_program::{Expr, Item, Num, Stmt};
use flow_base::Name;
use std::alloc::{AllocError, Global};

/// What the items of a block end with, where the next block has this number.
pub fn end(
    alloc: Global,
    names: &Names<'_>,
    next: u32,
    items: &[Item],
) -> Result<BlockEnd, AllocError>
    ensures { IfOk result (λ end. end_of end ≡ numbered_end (numbers_of names.now) next (map item_of items.now)) }
{
    match items.last() {
        None => Ok(BlockEnd::Fall(next)),
        Some(item) => end_by(alloc, names, next, item),
    }
}

// What a block ends with that ends with this item.
fn end_by(alloc: Global, names: &Names<'_>, next: u32, item: &Item) -> Result<BlockEnd, AllocError>
    ensures { IfOk result (λ end. end_of end ≡ end_by (numbers_of names.now) next (item_of item.now)) }
{
    match item {
        Item::Label(_) => Ok(BlockEnd::Fall(next)),
        Item::Stmt(Stmt::Null) => Ok(BlockEnd::Fall(next)),
        Item::Stmt(Stmt::Store(_, _)) => Ok(BlockEnd::Fall(next)),
        Item::Stmt(Stmt::Jump(label)) => Ok(BlockEnd::Jump(names.block(label.bytes()))),
        Item::Stmt(Stmt::Switch(value, targets, others)) => {
            switch(alloc, names, value, targets, others)
        }
        Item::Stmt(Stmt::Call(func, args, to)) => call(alloc, names, next, func, args, to),
        Item::Stmt(Stmt::Return(value)) => returned(alloc, names, value),
    }
}

// A switch.
fn switch(
    alloc: Global,
    names: &Names<'_>,
    value: &Expr,
    targets: &[(Num, Name)],
    others: &Name,
) -> Result<BlockEnd, AllocError>
    ensures { IfOk result (λ end. let numbers = numbers_of names.now in
        end_of end ≡ Switch (with_frames numbers.frame (expression_of value.now)) (numbered_targets numbers.block targets.now) (numbers.block others.now)) }
{
    let value = term(alloc, names, value)?;
    let targets = numbered_targets(alloc, names, targets)?;
    Ok(BlockEnd::Switch(value, targets, names.block(others.bytes())))
}

// The targets of a switch.
fn numbered_targets(
    alloc: Global,
    names: &Names<'_>,
    targets: &[(Num, Name)],
) -> Result<Vec<(u64, u32)>, AllocError>
    ensures { IfOk result (λ numbered. numbered.items ≡ numbered_targets (numbers_of names.now).block targets.now) }
{
    let mut numbered = Vec::new(alloc);
    for target in targets {
        numbered.push((target.0.bits, names.block(target.1.bytes())))?;
    }
    Ok(numbered)
}

// A call.
fn call(
    alloc: Global,
    names: &Names<'_>,
    next: u32,
    func: &Name,
    args: &[Expr],
    to: &Option<(Name, u32)>,
) -> Result<BlockEnd, AllocError>
    ensures { IfOk result
        (λ end. end_of end
        ≡ end_by (numbers_of names.now) next (Do (text.Call func.now (map expression_of args.now) to.now))) }
{
    let func = names.func(func.bytes());
    let args = terms(alloc, names, args)?;
    let result = match to {
        Some((frame, offset)) => Some((names.frame(frame.bytes()), *offset)),
        None => None,
    };
    Ok(BlockEnd::Call {
        func,
        args,
        result,
        next,
    })
}

// A return.
fn returned(alloc: Global, names: &Names<'_>, value: &Option<Expr>) -> Result<BlockEnd, AllocError>
    ensures { IfOk result
        (λ end. end_of end ≡ end_by (numbers_of names.now) 0 (Do (text.Return (option_map expression_of value.now)))) }
{
    match value {
        Some(value) => Ok(BlockEnd::Return(Some(term(alloc, names, value)?))),
        None => Ok(BlockEnd::Return(None)),
    }
}
