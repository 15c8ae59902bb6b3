//! Statements that control goes through.

ghost use Rattle.std.specs.Prelude.{◌≡◌, ◌++◌, map, IfOk, OnOk};
ghost use Rattle.std.specs.List.{flat_map};
ghost use Rattle.alf_program.specs.Tree.{item_of, expression_of, with_frames};
ghost use Rattle.alf_check.specs.CheckedPrograms.{Store, act_of};
ghost use Rattle.alf_check.specs.Numbered.{statements_by};
ghost use Rattle.alf_check.specs.Names.{numbers_of};

use crate::expressions::term;
use crate::lookup::Names;
use crate::rows::Act;
use alf_program::{Expr, Item, Stmt};
use std::alloc::{AllocError, Global};

/// What control goes through at the items.
pub fn acts(alloc: Global, names: &Names<'_>, items: &[Item]) -> Result<Vec<Act>, AllocError>
    ensures { IfOk result
        (λ acts. map act_of acts.items
        ≡ flat_map (statements_by (numbers_of names.now).frame) (map item_of items.now)) }
{
    let mut acts = Vec::new(alloc);
    for item in items {
        push_act(&mut acts, alloc, names, item)?;
    }
    Ok(acts)
}

// Adds what control goes through at the item, if it does not end its block.
fn push_act(
    acts: &mut Vec<Act>,
    alloc: Global,
    names: &Names<'_>,
    item: &Item,
) -> Result<(), AllocError>
    ensures { OnOk result
        (map act_of acts.new.items
        ≡ map act_of acts.old.items ++ statements_by (numbers_of names.now).frame (item_of item.now)) }
{
    match item {
        Item::Label(_) => {}
        Item::Stmt(Stmt::Null) => acts.push(Act::Null)?,
        Item::Stmt(Stmt::Store(at, value)) => acts.push(store(alloc, names, at, value)?)?,
        Item::Stmt(Stmt::Jump(_)) => {}
        Item::Stmt(Stmt::Switch(_, _, _)) => {}
        Item::Stmt(Stmt::Call(_, _, _)) => {}
        Item::Stmt(Stmt::Return(_)) => {}
    }
    Ok(())
}

// A store.
fn store(alloc: Global, names: &Names<'_>, at: &Expr, value: &Expr) -> Result<Act, AllocError>
    ensures { IfOk result
        (λ act. act_of act
        ≡ Store (with_frames (numbers_of names.now).frame (expression_of at.now))
        (with_frames (numbers_of names.now).frame (expression_of value.now))) }
{
    let at = term(alloc, names, at)?;
    let value = term(alloc, names, value)?;
    Ok(Act::Store(at, value))
}
