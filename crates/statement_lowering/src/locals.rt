//! Locals that are declared.

ghost use Rattle.std.specs.Prelude.{◌≡◌, ◌≤◌, ◌<◌, ◌+◌, ◌^◌, map, IfOk, OnOk};
ghost use Rattle.std.specs.Option.{option_map};
ghost use Rattle.c_unit.specs.Limits.{most_elements};
ghost use Rattle.c_unit.specs.Tree.{local_of, local_shape_of, value_of};
ghost use Rattle.c_unit.specs.Units.{unit_of};
ghost use Rattle.c_rules.specs.Statements as checks;
ghost use Rattle.c_scopes.specs.Views.{bound_of};
ghost use Rattle.c_rules.specs.Counts.{elements_of, elements_of_all};
ghost use Rattle.c_lowered.specs.Effects as laws;
ghost use Rattle.object_layout.specs.Views.{program_in};
ghost use Rattle.condition_lowering.specs.Views.{Makes, within_of};
ghost use Rattle.statement_lowering.specs.Views.{with_declared};

use crate::arrays::put_array;
use crate::items::put_assign;
use crate::values::{calls_in_first, put_value};
use alf_program::Item;
use c_scopes::{Bound, Scopes};
use c_unit::{Integer, Local, LocalShape, Scalar, Value};
use condition_lowering::Code;
use object_layout::Table;
use operator_lowering::address;
use std::alloc::AllocError;

/// How many calls with a result stand in what a local holds at first.
pub fn calls_in_shape(table: &Table<'_>, shape: &LocalShape) -> u64
    ensures { result ≡ laws.calls_in_shape (program_in table.now) (local_shape_of shape.now) }
{
    match shape {
        LocalShape::Integer(first) => calls_in_first(table, first),
        LocalShape::Pointer(first) => calls_in_first(table, first),
        LocalShape::Array(_, _) => 0,
    }
}

/// What a local is bound to.
pub fn local_bound(kind: Integer, shape: &LocalShape) -> Bound
    ensures { bound_of result ≡ checks.local_bound kind (local_shape_of shape.now) }
{
    match shape {
        LocalShape::Integer(_) => Bound::Variable(Scalar::Integer(kind)),
        LocalShape::Pointer(_) => Bound::Variable(Scalar::Pointer(kind)),
        LocalShape::Array(_, _) => Bound::Array(kind),
    }
}

// Puts what a variable holds at first, if it is told.
#[tactic(auto, using(crate::proofs::Steps::value_first))]
fn put_first(
    code: Code<'_, '_>,
    scopes: &Scopes<'_>,
    items: &mut Vec<Item>,
    kind: Scalar,
    name: &[u8],
    first: &Option<Value>,
    number: u64,
) -> Result<(), AllocError>
    requires { (unit_of code.table.now).words ≡ scopes.now.words }
    ensures { OnOk result
        (Makes items.old.items items.new.items
        (laws.first_items (within_of code.entry) scopes.now.scopes kind name.now (option_map value_of first.now)
        number)) }
{
    match first {
        Some(value) => {
            let value = put_value(code, scopes, items, value, number)?;
            let at = address(code.alloc, name, 0)?;
            put_assign(code, items, kind, at, value)?;
            Ok(())
        }
        None => Ok(()),
    }
}

// Puts what a local holds at first.
fn put_shape(
    code: Code<'_, '_>,
    scopes: &Scopes<'_>,
    items: &mut Vec<Item>,
    kind: Integer,
    name: &[u8],
    shape: &LocalShape,
    number: u64,
) -> Result<(), AllocError>
    requires words { (unit_of code.table.now).words ≡ scopes.now.words }
    requires elements { elements_of (unit_of code.table.now).words (local_shape_of shape.now) ≤ most_elements }
    ensures { OnOk result
        (Makes items.old.items items.new.items
        (laws.shape_items (within_of code.entry) scopes.now.scopes kind name.now (local_shape_of shape.now) number)) }
{
    match shape {
        LocalShape::Integer(first) => put_first(
            code,
            scopes,
            items,
            Scalar::Integer(kind),
            name,
            first,
            number,
        ),
        LocalShape::Pointer(first) => put_first(
            code,
            scopes,
            items,
            Scalar::Pointer(kind),
            name,
            first,
            number,
        ),
        LocalShape::Array(size, firsts) => put_array(code, items, kind, name, *size, firsts),
    }
}

/// Puts what locals hold at first, and declares them. Calls are numbered from this number on, and the number after
/// the last is given.
pub fn put_locals(
    code: Code<'_, '_>,
    scopes: &mut Scopes<'_>,
    items: &mut Vec<Item>,
    kind: Integer,
    locals: &[Local],
    number: u64,
) -> Result<u64, AllocError>
    requires words { (unit_of code.table.now).words ≡ scopes.old.words }
    requires few { number + laws.calls_in_locals (program_in code.table.now) (map local_of locals.now) < 2 ^ 64 }
    requires elements { elements_of_all (unit_of code.table.now).words (map local_of locals.now) ≤ most_elements }
    ensures items { OnOk result
        (Makes items.old.items items.new.items
        (laws.locals_items (within_of code.entry) kind scopes.old.scopes (map local_of locals.now) number)) }
    ensures calls { IfOk result
        (λ after. after ≡ number + laws.calls_in_locals (program_in code.entry.table.now) (map local_of locals.now)) }
    ensures known { OnOk result (scopes.new ≡ with_declared kind scopes.old (map local_of locals.now)) }
{
    let mut calls = number;
    let mut rest = locals;
    'locals: while let Some((local, others)) = rest.split_first() {
        scopes.declare(local.name, local_bound(kind, &local.shape))?;
        let name = code.table.frame_of(local.name);
        put_shape(code, scopes, items, kind, name, &local.shape, calls)?;
        calls += calls_in_shape(code.table, &local.shape);
        rest = others;
    }
    Ok(calls)
}
