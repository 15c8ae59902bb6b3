//! Items that are put one after the other.

ghost use Rattle.std.specs.Prelude.{◌∷◌, OnOk};
ghost use Rattle.alf_program.specs.Tree.{item_of, statement_of, Do};
ghost use Rattle.condition_lowering.specs.Views.{Makes};

use alf_program::{Item, Stmt as Act};
use std::alloc::AllocError;

/// Puts an item after those that are there.
pub fn put(items: &mut Vec<Item>, item: Item) -> Result<(), AllocError>
    ensures { OnOk result (Makes items.old.items items.new.items (λ rest. item_of item ∷ rest)) }
{
    items.push(item)?;
    Ok(())
}

/// Puts a statement of ALF after the items that are there.
pub fn put_act(items: &mut Vec<Item>, act: Act) -> Result<(), AllocError>
    ensures { OnOk result (Makes items.old.items items.new.items (λ rest. Do (statement_of act) ∷ rest)) }
{
    put(items, Item::Stmt(act))?;
    Ok(())
}
