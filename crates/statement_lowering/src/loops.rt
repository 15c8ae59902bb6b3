//! The labels, tests and jumps of loops.

ghost use Rattle.std.specs.Prelude.{◌≡◌, ◌<◌, ◌+◌, ◌^◌, ◌∷◌, Some, IfOk, OnOk};
ghost use Rattle.std.specs.Option.{option_map};
ghost use Rattle.c_unit.specs.Tree.{expression_of, effect_of};
ghost use Rattle.c_unit.specs.Units.{unit_of};
ghost use Rattle.c_lowered.specs.Conditions as conditions;
ghost use Rattle.c_lowered.specs.Statements as laws;
ghost use Rattle.object_layout.specs.Views.{program_in};
ghost use Rattle.condition_lowering.specs.Views.{Makes, within_of};

use crate::context::{Next, Targets};
use crate::effects::{calls_in_effect, put_effect};
use alf_program::Item;
use c_scopes::Scopes;
use c_unit::{Effect, Expr};
use condition_lowering::{Code, label_name, put_checked, put_condition, put_jump, put_label};
use object_layout::Table;
use std::alloc::AllocError;

/// `break` leads to the one label, and `continue` to the other.
pub fn loop_targets(leave: u64, again: u64) -> Targets
    ensures leave { result.leave ≡ Some leave }
    ensures again { result.again ≡ Some again }
{
    Targets {
        leave: Some(leave),
        again: Some(again),
    }
}

/// Puts what stands before the body of a `while`.
pub fn begin_while(
    code: Code<'_, '_>,
    scopes: &Scopes<'_>,
    items: &mut Vec<Item>,
    condition: &Expr,
    labels: u64,
) -> Result<u64, AllocError>
    requires words { (unit_of code.table.now).words ≡ scopes.now.words }
    requires few { 3 + labels + conditions.condition_labels (expression_of condition.now) < 2 ^ 64 }
    ensures items { OnOk result
        (Makes items.old.items items.new.items
        (λ rest. conditions.label_item (within_of code.entry) labels
        ∷ conditions.condition_items (within_of code.entry) scopes.now.scopes (expression_of condition.now) (3 + labels)
        (conditions.label (within_of code.entry) (1 + labels)) (conditions.label (within_of code.entry) (2 + labels))
        (conditions.label_item (within_of code.entry) (1 + labels) ∷ rest))) }
    ensures labels { IfOk result
        (λ after. after ≡ 3 + labels + conditions.condition_labels (expression_of condition.now)) }
{
    let begin = 1 + labels;
    let end = 2 + labels;
    let inner = 3 + labels;
    put_label(code, items, labels)?;
    let after = put_checked(code, scopes, items, condition, inner, begin, end)?;
    Ok(after)
}

/// Puts what stands after the body of a `while`.
pub fn end_while(code: Code<'_, '_>, items: &mut Vec<Item>, labels: u64) -> Result<(), AllocError>
    requires { 2 + labels < 2 ^ 64 }
    ensures { OnOk result
        (Makes items.old.items items.new.items
        (λ rest. conditions.jump (within_of code.entry) labels
        ∷ conditions.label_item (within_of code.entry) (2 + labels) ∷ rest)) }
{
    let end = 2 + labels;
    put_jump(code, items, labels)?;
    put_label(code, items, end)?;
    Ok(())
}

/// Puts what stands after the body of a `do`, up to which labels are numbered to `next`.
pub fn end_do(
    code: Code<'_, '_>,
    scopes: &Scopes<'_>,
    items: &mut Vec<Item>,
    condition: &Expr,
    labels: u64,
    next: u64,
) -> Result<u64, AllocError>
    requires words { (unit_of code.table.now).words ≡ scopes.now.words }
    requires own { 2 + labels < 2 ^ 64 }
    requires few { next + conditions.condition_labels (expression_of condition.now) < 2 ^ 64 }
    ensures items { OnOk result
        (Makes items.old.items items.new.items
        (λ rest. conditions.label_item (within_of code.entry) (1 + labels)
        ∷ conditions.condition_items (within_of code.entry) scopes.now.scopes (expression_of condition.now) next
        (conditions.label (within_of code.entry) labels) (conditions.label (within_of code.entry) (2 + labels))
        (conditions.label_item (within_of code.entry) (2 + labels) ∷ rest))) }
    ensures labels { IfOk result (λ after. after ≡ next + conditions.condition_labels (expression_of condition.now)) }
{
    let test = 1 + labels;
    let end = 2 + labels;
    let held = label_name(code, labels)?;
    let failed = label_name(code, end)?;
    put_label(code, items, test)?;
    let after = put_condition(
        code,
        scopes,
        items,
        condition,
        next,
        held.bytes(),
        failed.bytes(),
    )?;
    put_label(code, items, end)?;
    Ok(after)
}

// Puts a condition, or a jump where it holds, if there is none.
fn put_condition_if(
    code: Code<'_, '_>,
    scopes: &Scopes<'_>,
    items: &mut Vec<Item>,
    condition: &Option<Expr>,
    next: u64,
    held: u64,
    failed: u64,
) -> Result<u64, AllocError>
    requires words { (unit_of code.table.now).words ≡ scopes.now.words }
    requires few { next + laws.labels_if (option_map expression_of condition.now) < 2 ^ 64 }
    ensures items { OnOk result
        (Makes items.old.items items.new.items
        (laws.condition_if (within_of code.entry) scopes.now.scopes (option_map expression_of condition.now) next held
        failed)) }
    ensures labels { IfOk result (λ after. after ≡ next + laws.labels_if (option_map expression_of condition.now)) }
{
    match condition {
        None => {
            put_jump(code, items, held)?;
            Ok(next)
        }
        Some(condition) => {
            let held = label_name(code, held)?;
            let failed = label_name(code, failed)?;
            put_condition(
                code,
                scopes,
                items,
                condition,
                next,
                held.bytes(),
                failed.bytes(),
            )
        }
    }
}

// Puts what is done after each turn, if anything is.
fn put_effect_if(
    code: Code<'_, '_>,
    scopes: &Scopes<'_>,
    items: &mut Vec<Item>,
    effect: &Option<Effect>,
    number: u64,
) -> Result<(), AllocError>
    requires { (unit_of code.table.now).words ≡ scopes.now.words }
    ensures { OnOk result
        (Makes items.old.items items.new.items
        (laws.effect_if (within_of code.entry) scopes.now.scopes (option_map effect_of effect.now) number)) }
{
    match effect {
        None => Ok(()),
        Some(effect) => put_effect(code, scopes, items, effect, number),
    }
}

/// How many calls with a result stand in an effect that may be there.
pub fn calls_if(table: &Table<'_>, effect: &Option<Effect>) -> u64
    ensures { result ≡ laws.calls_if (program_in table.now) (option_map effect_of effect.now) }
{
    match effect {
        None => 0,
        Some(effect) => calls_in_effect(table, effect),
    }
}

/// Puts what stands before the body of a `for`, after its first part.
pub fn begin_for(
    code: Code<'_, '_>,
    scopes: &Scopes<'_>,
    items: &mut Vec<Item>,
    condition: &Option<Expr>,
    labels: u64,
) -> Result<u64, AllocError>
    requires words { (unit_of code.table.now).words ≡ scopes.now.words }
    requires few { 4 + labels + laws.labels_if (option_map expression_of condition.now) < 2 ^ 64 }
    ensures items { OnOk result
        (Makes items.old.items items.new.items
        (λ rest. conditions.label_item (within_of code.entry) labels
        ∷ laws.condition_if (within_of code.entry) scopes.now.scopes (option_map expression_of condition.now)
        (4 + labels) (1 + labels) (3 + labels)
        (conditions.label_item (within_of code.entry) (1 + labels) ∷ rest))) }
    ensures labels { IfOk result
        (λ after. after ≡ 4 + labels + laws.labels_if (option_map expression_of condition.now)) }
{
    let begin = 1 + labels;
    let end = 3 + labels;
    let inner = 4 + labels;
    put_label(code, items, labels)?;
    let after = put_condition_if(code, scopes, items, condition, inner, begin, end)?;
    put_label(code, items, begin)?;
    Ok(after)
}

/// Puts what stands after the body of a `for`, whose labels and calls are numbered from these on.
pub fn end_for(
    code: Code<'_, '_>,
    scopes: &Scopes<'_>,
    items: &mut Vec<Item>,
    last: &Option<Effect>,
    first: Next,
) -> Result<(), AllocError>
    requires words { (unit_of code.table.now).words ≡ scopes.now.words }
    requires few { 3 + first.labels < 2 ^ 64 }
    ensures { OnOk result
        (Makes items.old.items items.new.items
        (λ rest. conditions.label_item (within_of code.entry) (2 + first.labels)
        ∷ laws.effect_if (within_of code.entry) scopes.now.scopes (option_map effect_of last.now) first.calls
        (conditions.jump (within_of code.entry) first.labels
        ∷ conditions.label_item (within_of code.entry) (3 + first.labels) ∷ rest))) }
{
    let further = 2 + first.labels;
    let end = 3 + first.labels;
    put_label(code, items, further)?;
    put_effect_if(code, scopes, items, last, first.calls)?;
    put_jump(code, items, first.labels)?;
    put_label(code, items, end)?;
    Ok(())
}
