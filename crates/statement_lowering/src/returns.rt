//! Returns.

ghost use Rattle.std.specs.Prelude.{◌≡◌, ◌∷◌, IfOk, OnOk};
ghost use Rattle.std.specs.Option.{option_map};
ghost use Rattle.alf_program.specs.Tree as alf;
ghost use Rattle.c_unit.specs.Tree.{value_of};
ghost use Rattle.c_unit.specs.Units.{unit_of};
ghost use Rattle.c_lowered.specs.Statements as laws;
ghost use Rattle.c_lowered.specs.Programs as programs;
ghost use Rattle.condition_lowering.specs.Views.{Makes, within_of};

use crate::values::put_value;
use alf_program::{Expr as Term, Item, Stmt as Act};
use c_scopes::Scopes;
use c_unit::{Outcome, Value};
use condition_lowering::{Code, put_act};
use operator_lowering::{cut, whole};
use std::alloc::AllocError;

// A value, as the function gives it.
fn as_result(code: Code<'_, '_>, given: Outcome, value: Term) -> Result<Term, AllocError>
    ensures { IfOk result (λ term. alf.expression_of term ≡ laws.as_result given (alf.expression_of value)) }
{
    match given {
        Outcome::Nothing => Ok(value),
        Outcome::Integer(kind) => cut(code.alloc, kind, value),
    }
}

/// Puts a `return`, with a call of this number.
#[tactic(auto, using(crate::proofs::Steps::value_first))]
pub fn put_return(
    code: Code<'_, '_>,
    scopes: &Scopes<'_>,
    items: &mut Vec<Item>,
    value: &Option<Value>,
    number: u64,
) -> Result<(), AllocError>
    requires { (unit_of code.table.now).words ≡ scopes.now.words }
    ensures { OnOk result
        (Makes items.old.items items.new.items
        (laws.return_items (within_of code.entry) scopes.now.scopes (option_map value_of value.now) number)) }
{
    match value {
        Some(value) => {
            let value = put_value(code, scopes, items, value, number)?;
            let value = as_result(code, code.table.result_at(code.function), value)?;
            put_act(items, Act::Return(Some(value)))?;
            Ok(())
        }
        None => put_act(items, Act::Return(None)),
    }
}

/// Puts the end of a function that gives this: 0 is returned, or nothing.
pub fn put_last_return(
    code: Code<'_, '_>,
    items: &mut Vec<Item>,
    given: Outcome,
) -> Result<(), AllocError>
    ensures { OnOk result (Makes items.old.items items.new.items (λ rest. programs.last_return given ∷ rest)) }
{
    match given {
        Outcome::Nothing => put_act(items, Act::Return(None)),
        Outcome::Integer(kind) => {
            let value = cut(code.alloc, kind, whole(0))?;
            put_act(items, Act::Return(Some(value)))?;
            Ok(())
        }
    }
}
