//! Items of statements: jumps out of a loop or a switch, and stores.

ghost use Rattle.std.specs.Prelude.{◌≡◌, ◌∷◌, IfOk, OnOk};
ghost use Rattle.alf_program.specs.Tree as alf;
ghost use Rattle.alf_program.specs.Tree.{expression_of, Do};
ghost use Rattle.c_lowered.specs.Effects as effects;
ghost use Rattle.condition_lowering.specs.Views.{Makes, within_of};
ghost use Rattle.statement_lowering.specs.Views.{target};

use alf_program::{Expr as Term, Item, Stmt as Act};
use c_unit::Scalar;
use condition_lowering::{Code, label_name, put_act};
use flow_base::Name;
use operator_lowering::cut_to;
use std::alloc::AllocError;

// The name of a label, or no name.
fn target_name(code: Code<'_, '_>, number: Option<u64>) -> Result<Name, AllocError>
    ensures { IfOk result (λ name. name ≡ target (within_of code.entry) number) }
{
    match number {
        Some(number) => label_name(code, number),
        None => Name::new(code.alloc, &[]),
    }
}

/// Puts a jump to a label, if there is one; where there is none, to no label.
pub fn put_leaving(
    code: Code<'_, '_>,
    items: &mut Vec<Item>,
    number: Option<u64>,
) -> Result<(), AllocError>
    ensures { OnOk result
        (Makes items.old.items items.new.items (λ rest. Do (alf.Jump (target (within_of code.entry) number)) ∷ rest)) }
{
    let name = target_name(code, number)?;
    put_act(items, Act::Jump(name))?;
    Ok(())
}

/// Puts a store of a value as an object of the type has it.
pub fn put_assign(
    code: Code<'_, '_>,
    items: &mut Vec<Item>,
    kind: Scalar,
    at: Term,
    value: Term,
) -> Result<(), AllocError>
    ensures { OnOk result
        (Makes items.old.items items.new.items
        (λ rest. effects.assign kind (expression_of at) (expression_of value) ∷ rest)) }
{
    let value = cut_to(code.alloc, kind, value)?;
    put_act(items, Act::Store(at, value))?;
    Ok(())
}
