//! The labels, tests and jumps of an `if`.

ghost use Rattle.std.specs.Prelude.{◌≡◌, ◌≤◌, ◌<◌, ◌+◌, ◌^◌, ◌∷◌, IfOk, OnOk};
ghost use Rattle.c_unit.specs.Tree.{expression_of};
ghost use Rattle.c_unit.specs.Units.{unit_of};
ghost use Rattle.c_lowered.specs.Conditions as laws;
ghost use Rattle.condition_lowering.specs.Views.{Makes, within_of};

use crate::code::Code;
use crate::conditions::put_condition;
use crate::labels::{label_name, put_jump, put_label};
use alf_program::Item;
use c_scopes::Scopes;
use c_unit::Expr;
use std::alloc::AllocError;

/// Puts a condition, and then the label to which it leads where it holds. Its own labels are numbered from `next` on,
/// and the number after the last is given.
pub fn put_checked(
    code: Code<'_, '_>,
    scopes: &Scopes<'_>,
    items: &mut Vec<Item>,
    condition: &Expr,
    next: u64,
    held: u64,
    failed: u64,
) -> Result<u64, AllocError>
    requires words { (unit_of code.table.now).words ≡ scopes.now.words }
    requires few { next + laws.condition_labels (expression_of condition.now) < 2 ^ 64 }
    ensures items { OnOk result
        (Makes items.old.items items.new.items
        (λ rest. laws.condition_items (within_of code.entry) scopes.now.scopes (expression_of condition.now) next
        (laws.label (within_of code.entry) held) (laws.label (within_of code.entry) failed)
        (laws.label_item (within_of code.entry) held ∷ rest))) }
    ensures labels { IfOk result (λ after. after ≡ next + laws.condition_labels (expression_of condition.now)) }
{
    let to = label_name(code, held)?;
    let other = label_name(code, failed)?;
    let labels = put_condition(
        code,
        scopes,
        items,
        condition,
        next,
        to.bytes(),
        other.bytes(),
    )?;
    put_label(code, items, held)?;
    Ok(labels)
}

/// Puts the condition of an `if` that has `own` labels of its own, numbered from `labels` on, and the label of what
/// is done where it holds. The number after the labels of the condition is given.
pub fn begin_if(
    code: Code<'_, '_>,
    scopes: &Scopes<'_>,
    items: &mut Vec<Item>,
    condition: &Expr,
    labels: u64,
    own: u64,
) -> Result<u64, AllocError>
    requires words { (unit_of code.table.now).words ≡ scopes.now.words }
    requires own { 2 ≤ own }
    requires few { own + labels + laws.condition_labels (expression_of condition.now) < 2 ^ 64 }
    ensures items { OnOk result
        (Makes items.old.items items.new.items
        (λ rest. laws.condition_items (within_of code.entry) scopes.now.scopes (expression_of condition.now)
        (own + labels) (laws.label (within_of code.entry) labels) (laws.label (within_of code.entry) (1 + labels))
        (laws.label_item (within_of code.entry) labels ∷ rest))) }
    ensures labels { IfOk result (λ after. after ≡ own + labels + laws.condition_labels (expression_of condition.now)) }
{
    let other = 1 + labels;
    let inner = own + labels;
    let after = put_checked(code, scopes, items, condition, inner, labels, other)?;
    Ok(after)
}

/// Puts what stands after an `if` without an `else`, whose labels are numbered from `labels` on.
pub fn end_if(code: Code<'_, '_>, items: &mut Vec<Item>, labels: u64) -> Result<(), AllocError>
    requires { 1 + labels < 2 ^ 64 }
    ensures { OnOk result
        (Makes items.old.items items.new.items
        (λ rest. laws.jump (within_of code.entry) (1 + labels) ∷ laws.label_item (within_of code.entry) (1 + labels)
        ∷ rest)) }
{
    let end = 1 + labels;
    put_jump(code, items, end)?;
    put_label(code, items, end)?;
    Ok(())
}

/// Puts what stands before the `else` of an `if`, whose labels are numbered from `labels` on.
pub fn end_then(code: Code<'_, '_>, items: &mut Vec<Item>, labels: u64) -> Result<(), AllocError>
    requires { 2 + labels < 2 ^ 64 }
    ensures { OnOk result
        (Makes items.old.items items.new.items
        (λ rest. laws.jump (within_of code.entry) (2 + labels) ∷ laws.label_item (within_of code.entry) (1 + labels)
        ∷ rest)) }
{
    let other = 1 + labels;
    let end = 2 + labels;
    put_jump(code, items, end)?;
    put_label(code, items, other)?;
    Ok(())
}

/// Puts the label after the `else` of an `if`, whose labels are numbered from `labels` on.
pub fn end_else(code: Code<'_, '_>, items: &mut Vec<Item>, labels: u64) -> Result<(), AllocError>
    requires { 2 + labels < 2 ^ 64 }
    ensures { OnOk result
        (Makes items.old.items items.new.items (λ rest. laws.label_item (within_of code.entry) (2 + labels) ∷ rest)) }
{
    let end = 2 + labels;
    put_label(code, items, end)?;
    Ok(())
}
