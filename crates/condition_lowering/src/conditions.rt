//! Conditions, as switches on one bit.

ghost use Rattle.std.specs.Prelude.{◌≡◌, ◌+◌, ◌<◌, ◌^◌, ◌∷◌, IfOk, OnOk};
ghost use Rattle.alf_program.specs.Tree as alf;
ghost use Rattle.c_unit.specs.Tree.{expression_of};
ghost use Rattle.c_unit.specs.Units.{unit_of};
ghost use Rattle.c_meaning.specs.Expressions.{kind_of};
ghost use Rattle.c_lowered.specs.Values as values;
ghost use Rattle.c_lowered.specs.Conditions as laws;
ghost use Rattle.object_layout.specs.Views.{program_in};
ghost use Rattle.condition_lowering.specs.Views.{Makes, within_of};

use crate::code::Code;
use crate::items::put_act;
use crate::joins::{Join, is_not, join_of};
use crate::labels::{label_name, put_label};
use alf_program::{Expr as Term, Item, Num, Stmt as Act};
use c_scopes::Scopes;
use c_unit::{Binary, Expr};
use expression_lowering::{kind_or_int, value_of};
use flow_base::Name;
use operator_lowering::{is_true, test_of};
use std::alloc::AllocError;

// A switch on one bit.
fn put_branch(
    code: Code<'_, '_>,
    items: &mut Vec<Item>,
    test: Term,
    held: &[u8],
    failed: &[u8],
) -> Result<(), AllocError>
    ensures { OnOk result
        (Makes items.old.items items.new.items
        (λ rest. laws.branch (alf.expression_of test) held.now failed.now ∷ rest)) }
{
    let one = Num {
        signed: false,
        size: 1,
        bits: 1,
    };
    let held = Name::new(code.alloc, held)?;
    let mut targets = Vec::new(code.alloc);
    targets.push((one, held))?;
    let failed = Name::new(code.alloc, failed)?;
    put_act(items, Act::Switch(test, targets, failed))?;
    Ok(())
}

// A condition that is a value.
fn put_value(
    code: Code<'_, '_>,
    scopes: &Scopes<'_>,
    items: &mut Vec<Item>,
    e: &Expr,
    held: &[u8],
    failed: &[u8],
) -> Result<(), AllocError>
    requires { (unit_of code.table.now).words ≡ scopes.now.words }
    ensures { OnOk result
        (Makes items.old.items items.new.items
        (λ rest. laws.branch
        (values.is_true (values.value_of (program_in code.entry.table.now) scopes.now.scopes (expression_of e.now)))
        held.now failed.now ∷ rest)) }
{
    let value = value_of(code.alloc, code.table, scopes, e)?;
    let test = is_true(code.alloc, value.value)?;
    put_branch(code, items, test, held, failed)?;
    Ok(())
}

// A comparison, or another operator with a value.
fn put_test(
    code: Code<'_, '_>,
    scopes: &Scopes<'_>,
    items: &mut Vec<Item>,
    op: Binary,
    left: &Expr,
    right: &Expr,
    held: &[u8],
    failed: &[u8],
) -> Result<(), AllocError>
    requires { (unit_of code.table.now).words ≡ scopes.now.words }
    ensures { OnOk result
        (Makes items.old.items items.new.items
        (λ rest. laws.branch
        (values.test_of op (kind_of (unit_of code.entry.table.now).words scopes.now.scopes (expression_of left.now))
        (kind_of (unit_of code.entry.table.now).words scopes.now.scopes (expression_of right.now))
        (values.value_of (program_in code.entry.table.now) scopes.now.scopes (expression_of left.now))
        (values.value_of (program_in code.entry.table.now) scopes.now.scopes (expression_of right.now))) held.now
        failed.now ∷ rest)) }
{
    let l = value_of(code.alloc, code.table, scopes, left)?;
    let r = value_of(code.alloc, code.table, scopes, right)?;
    let (a, b) = (kind_or_int(l.kind), kind_or_int(r.kind));
    let test = test_of(code.alloc, op, a, b, l.value, r.value)?;
    put_branch(code, items, test, held, failed)?;
    Ok(())
}

/// A condition, which leads to `held` where it holds and to `failed` where it does not. Labels are numbered from
/// `next` on, and the number after the last is given.
#[cycle(conditions)]
pub fn put_condition(
    code: Code<'_, '_>,
    scopes: &Scopes<'_>,
    items: &mut Vec<Item>,
    e: &Expr,
    next: u64,
    held: &[u8],
    failed: &[u8],
) -> Result<u64, AllocError>
    requires words { (unit_of code.table.now).words ≡ scopes.now.words }
    requires few { next + laws.condition_labels (expression_of e.now) < 2 ^ 64 }
    ensures items { OnOk result
        (Makes items.old.items items.new.items
        (laws.condition_items (within_of code.entry) scopes.now.scopes (expression_of e.now) next held.now
        failed.now)) }
    ensures labels { IfOk result (λ after. after ≡ next + laws.condition_labels (expression_of e.now)) }
{
    match e {
        Expr::Parentheses(_, inner) => put_condition(
            code, scopes, items, inner, next, held, failed,
        ),
        Expr::Unary(op, _, operand) => {
            if is_not(*op) {
                put_condition(code, scopes, items, operand, next, failed, held)
            } else {
                put_value(code, scopes, items, e, held, failed)?;
                Ok(next)
            }
        }
        Expr::Binary(op, _, left, right) => match join_of(*op) {
            Join::Both => {
                let mid = label_name(code, next)?;
                let first = 1 + next;
                let second = put_condition(code, scopes, items, left, first, mid.bytes(), failed)?;
                put_label(code, items, next)?;
                let after = put_condition(code, scopes, items, right, second, held, failed)?;
                Ok(after)
            }
            Join::Either => {
                let mid = label_name(code, next)?;
                let first = 1 + next;
                let second = put_condition(code, scopes, items, left, first, held, mid.bytes())?;
                put_label(code, items, next)?;
                let after = put_condition(code, scopes, items, right, second, held, failed)?;
                Ok(after)
            }
            Join::Neither => {
                put_test(code, scopes, items, *op, left, right, held, failed)?;
                Ok(next)
            }
        },
        Expr::Constant(_) | Expr::Name(_) | Expr::Cast(_, _, _) | Expr::Index(_, _, _) => {
            put_value(code, scopes, items, e, held, failed)?;
            Ok(next)
        }
    }
}
