//! Calls in values, in what statements do, and in declarations.

ghost use Rattle.std.specs.Prelude.{◌≡◌, ◌<◌, ◌^◌, ◌++◌, map, length, OnOk};
ghost use Rattle.std.specs.Option.{option_map};
ghost use Rattle.c_unit.specs.Tree.{value_of, effect_of, local_of, local_shape_of};
ghost use Rattle.c_rules.specs.Recursion.{calls_in_value, calls_if_valued, calls_in_effect, calls_if_done};
ghost use Rattle.c_rules.specs.Recursion.{calls_in_shape, calls_in_locals, numbers_at};

use crate::noting::note;
use c_scopes::Definitions;
use c_unit::{Effect, Local, LocalShape, Value};
use std::alloc::AllocError;

/// Notes the call, if the value is one.
pub fn note_value(
    functions: &Definitions<'_>,
    row: &mut Vec<u32>,
    value: &Value,
) -> Result<(), AllocError>
    requires { length functions.now.names < 2 ^ 32 }
    ensures { OnOk result
        (row.new.items
        ≡ row.old.items ++ numbers_at functions.now.words functions.now.names (calls_in_value (value_of value.now))) }
{
    match value {
        Value::Expr(_) => Ok(()),
        Value::Call(call) => note(functions, row, call.name),
    }
}

/// The same, if there is a value.
pub fn note_if_valued(
    functions: &Definitions<'_>,
    row: &mut Vec<u32>,
    value: &Option<Value>,
) -> Result<(), AllocError>
    requires { length functions.now.names < 2 ^ 32 }
    ensures { OnOk result
        (row.new.items
        ≡ row.old.items
        ++ numbers_at functions.now.words functions.now.names (calls_if_valued (option_map value_of value.now))) }
{
    match value {
        Some(value) => note_value(functions, row, value),
        None => Ok(()),
    }
}

/// Notes the call in what a statement does, if there is one.
pub fn note_effect(
    functions: &Definitions<'_>,
    row: &mut Vec<u32>,
    effect: &Effect,
) -> Result<(), AllocError>
    requires { length functions.now.names < 2 ^ 32 }
    ensures { OnOk result
        (row.new.items
        ≡ row.old.items
        ++ numbers_at functions.now.words functions.now.names (calls_in_effect (effect_of effect.now))) }
{
    match effect {
        Effect::Assign(_, _, value) => note_value(functions, row, value),
        Effect::Update(_, _, _, _) => Ok(()),
        Effect::Step(_, _, _) => Ok(()),
        Effect::Call(call) => note(functions, row, call.name),
    }
}

/// The same, if something is done.
pub fn note_if_done(
    functions: &Definitions<'_>,
    row: &mut Vec<u32>,
    effect: &Option<Effect>,
) -> Result<(), AllocError>
    requires { length functions.now.names < 2 ^ 32 }
    ensures { OnOk result
        (row.new.items
        ≡ row.old.items
        ++ numbers_at functions.now.words functions.now.names (calls_if_done (option_map effect_of effect.now))) }
{
    match effect {
        Some(effect) => note_effect(functions, row, effect),
        None => Ok(()),
    }
}

// Notes the call that gives a local what it holds at first, if there is one.
fn note_shape(
    functions: &Definitions<'_>,
    row: &mut Vec<u32>,
    shape: &LocalShape,
) -> Result<(), AllocError>
    requires { length functions.now.names < 2 ^ 32 }
    ensures { OnOk result
        (row.new.items
        ≡ row.old.items
        ++ numbers_at functions.now.words functions.now.names (calls_in_shape (local_shape_of shape.now))) }
{
    match shape {
        LocalShape::Integer(first) => note_if_valued(functions, row, first),
        LocalShape::Pointer(first) => note_if_valued(functions, row, first),
        LocalShape::Array(_, _) => Ok(()),
    }
}

/// Notes the calls of declared locals.
#[tactic(auto, using(crate::proofs::Numbering::numbering))]
pub fn note_locals(
    functions: &Definitions<'_>,
    row: &mut Vec<u32>,
    locals: &[Local],
) -> Result<(), AllocError>
    requires { length functions.now.names < 2 ^ 32 }
    ensures { OnOk result
        (row.new.items
        ≡ row.old.items
        ++ numbers_at functions.now.words functions.now.names (calls_in_locals (map local_of locals.now))) }
{
    for local in locals {
        note_shape(functions, row, &local.shape)?;
    }
    Ok(())
}
