//! What statements do.

ghost use Rattle.std.specs.Prelude.{◌≡◌, ◌∷◌, OnOk};
ghost use Rattle.alf_program.specs.Tree as alf;
ghost use Rattle.c_unit.specs.Tree.{expression_of, effect_of};
ghost use Rattle.c_unit.specs.Units.{unit_of};
ghost use Rattle.c_meaning.specs.Statements as meaning;
ghost use Rattle.c_lowered.specs.Effects as laws;
ghost use Rattle.object_layout.specs.Views.{program_in};
ghost use Rattle.condition_lowering.specs.Views.{Makes, within_of};

use crate::calls::{calls_of_outcome, put_call};
use crate::items::put_assign;
use crate::values::{calls_in_value, put_value};
use alf_program::{Expr as Term, Item};
use c_scopes::Scopes;
use c_unit::{Binary, Effect, Expr, Integer, Scalar};
use condition_lowering::Code;
use expression_lowering::{address_of, kind_or_int, value_of};
use object_layout::Table;
use operator_lowering::{binary_value, whole};
use std::alloc::AllocError;

/// How many calls with a result stand in an effect.
pub fn calls_in_effect(table: &Table<'_>, effect: &Effect) -> u64
    ensures { result ≡ laws.calls_in_effect (program_in table.now) (effect_of effect.now) }
{
    match effect {
        Effect::Assign(_, _, value) => calls_in_value(table, value),
        Effect::Update(_, _, _, _) => 0,
        Effect::Step(_, _, _) => 0,
        Effect::Call(call) => calls_of_outcome(table.result_of(call.name)),
    }
}

// The operator of `++` and `--`.
fn step_operator(up: bool) -> Binary
    ensures { result ≡ meaning.step_operator up }
{
    if up { Binary::Add } else { Binary::Subtract }
}

// `x op= e` as `x = x op e`, where the right side has this type.
fn put_update(
    code: Code<'_, '_>,
    scopes: &Scopes<'_>,
    items: &mut Vec<Item>,
    to: &Expr,
    op: Binary,
    kind: Scalar,
    right: Term,
) -> Result<(), AllocError>
    requires { (unit_of code.table.now).words ≡ scopes.now.words }
    ensures { OnOk result
        (Makes items.old.items items.new.items
        (λ rest. laws.update (program_in code.entry.table.now) scopes.now.scopes (expression_of to.now) op kind
        (alf.expression_of right) ∷ rest)) }
{
    let left = value_of(code.alloc, code.table, scopes, to)?;
    let at = address_of(code.alloc, code.table, scopes, to)?;
    let held = kind_or_int(at.kind);
    let value = binary_value(code.alloc, op, held, kind, left.value, right)?;
    put_assign(code, items, held, at.value, value)?;
    Ok(())
}

/// Puts what a statement does, with a call of this number.
#[tactic(auto, using(crate::proofs::Steps::value_first))]
pub fn put_effect(
    code: Code<'_, '_>,
    scopes: &Scopes<'_>,
    items: &mut Vec<Item>,
    effect: &Effect,
    number: u64,
) -> Result<(), AllocError>
    requires { (unit_of code.table.now).words ≡ scopes.now.words }
    ensures { OnOk result
        (Makes items.old.items items.new.items
        (laws.effect_items (within_of code.entry) scopes.now.scopes (effect_of effect.now) number)) }
{
    match effect {
        Effect::Assign(to, _, value) => {
            let value = put_value(code, scopes, items, value, number)?;
            let at = address_of(code.alloc, code.table, scopes, to)?;
            put_assign(code, items, kind_or_int(at.kind), at.value, value)?;
            Ok(())
        }
        Effect::Update(to, op, _, e) => {
            let right = value_of(code.alloc, code.table, scopes, e)?;
            let kind = kind_or_int(right.kind);
            put_update(code, scopes, items, to, *op, kind, right.value)?;
            Ok(())
        }
        Effect::Step(operand, up, _) => {
            let int = Scalar::Integer(Integer::Int);
            let (op, one) = (step_operator(*up), whole(1));
            put_update(code, scopes, items, operand, op, int, one)?;
            Ok(())
        }
        Effect::Call(call) => put_call(code, scopes, items, call, number),
    }
}
