//! What is assigned, held at first or returned.

ghost use Rattle.std.specs.Prelude.{◌≡◌, IfOk, OnOk};
ghost use Rattle.std.specs.Option.{option_map};
ghost use Rattle.alf_program.specs.Tree.{expression_of};
ghost use Rattle.c_unit.specs.Tree.{value_of};
ghost use Rattle.c_unit.specs.Units.{unit_of};
ghost use Rattle.c_lowered.specs.Effects as laws;
ghost use Rattle.object_layout.specs.Views.{program_in};
ghost use Rattle.condition_lowering.specs.Views.{Makes, within_of};
ghost use Rattle.statement_lowering.specs.ValueParts.{value_calls, value_term};

use crate::calls::{call_value, calls_of_outcome, put_call};
use alf_program::{Expr as Term, Item};
use c_scopes::Scopes;
use c_unit::Value;
use condition_lowering::Code;
use expression_lowering::value_of;
use object_layout::Table;
use std::alloc::AllocError;

/// How many calls with a result stand in a value.
pub fn calls_in_value(table: &Table<'_>, value: &Value) -> u64
    ensures { result ≡ laws.calls_in_value (program_in table.now) (value_of value.now) }
{
    match value {
        Value::Expr(_) => 0,
        Value::Call(call) => calls_of_outcome(table.result_of(call.name)),
    }
}

/// How many stand in a value that may be there.
pub fn calls_in_first(table: &Table<'_>, first: &Option<Value>) -> u64
    ensures { result ≡ laws.calls_in_first (program_in table.now) (option_map value_of first.now) }
{
    match first {
        Some(value) => calls_in_value(table, value),
        None => 0,
    }
}

/// Puts the call of this number, if the value is one, and gives the value.
pub fn put_value(
    code: Code<'_, '_>,
    scopes: &Scopes<'_>,
    items: &mut Vec<Item>,
    value: &Value,
    number: u64,
) -> Result<Term, AllocError>
    requires { (unit_of code.table.now).words ≡ scopes.now.words }
    ensures items { OnOk result
        (Makes items.old.items items.new.items
        (value_calls (within_of code.entry) scopes.now.scopes (value_of value.now) number)) }
    ensures value { IfOk result
        (λ term. expression_of term ≡ value_term (within_of code.entry) scopes.now.scopes (value_of value.now) number) }
{
    match value {
        Value::Expr(e) => {
            let value = value_of(code.alloc, code.table, scopes, e)?;
            Ok(value.value)
        }
        Value::Call(call) => {
            put_call(code, scopes, items, call, number)?;
            let value = call_value(code, call, number)?;
            Ok(value)
        }
    }
}
