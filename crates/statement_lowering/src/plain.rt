//! Statements in which no statement stands.

ghost use Rattle.std.specs.Prelude.{◌≡◌, ◌≤◌, ◌<◌, ◌+◌, ◌^◌, true, map, IfOk, OnOk};
ghost use Rattle.std.specs.Option.{option_map};
ghost use Rattle.c_unit.specs.Limits.{most_elements};
ghost use Rattle.c_unit.specs.Tree.{value_of, effect_of, local_of, statement_of};
ghost use Rattle.c_unit.specs.Units.{unit_of};
ghost use Rattle.c_rules.specs.Counts.{elements_of_all, elements_in};
ghost use Rattle.c_lowered.specs.Effects as effects;
ghost use Rattle.c_lowered.specs.Statements as laws;
ghost use Rattle.object_layout.specs.Views.{program_in};
ghost use Rattle.condition_lowering.specs.Views.{Makes, within_of};
ghost use Rattle.statement_lowering.specs.Plain.{is_plain};
ghost use Rattle.statement_lowering.specs.Views.{around_of, known_after, with_declared};

use crate::context::{Next, Targets};
use crate::effects::{calls_in_effect, put_effect};
use crate::items::put_leaving;
use crate::locals::put_locals;
use crate::returns::put_return;
use crate::values::calls_in_first;
use alf_program::Item;
use c_scopes::Scopes;
use c_unit::{Effect, Integer, Local, Stmt, Value};
use condition_lowering::Code;
use std::alloc::AllocError;

// Puts a `return`.
fn put_returned(
    code: Code<'_, '_>,
    scopes: &Scopes<'_>,
    items: &mut Vec<Item>,
    next: Next,
    value: &Option<Value>,
) -> Result<Next, AllocError>
    requires words { (unit_of code.table.now).words ≡ scopes.now.words }
    requires few { next.calls + laws.calls_in_returned (program_in code.table.now) (option_map value_of value.now)
        < 2 ^ 64 }
    ensures items { OnOk result
        (Makes items.old.items items.new.items
        (laws.return_items (within_of code.entry) scopes.now.scopes (option_map value_of value.now) next.calls)) }
    ensures labels { IfOk result (λ after. after.labels ≡ next.labels) }
    ensures calls { IfOk result
        (λ after. after.calls
        ≡ next.calls + laws.calls_in_returned (program_in code.entry.table.now) (option_map value_of value.now)) }
{
    put_return(code, scopes, items, value, next.calls)?;
    let calls = calls_in_first(code.table, value) + next.calls;
    Ok(Next {
        labels: next.labels,
        calls,
    })
}

// Puts what a statement does.
fn put_done(
    code: Code<'_, '_>,
    scopes: &Scopes<'_>,
    items: &mut Vec<Item>,
    next: Next,
    effect: &Effect,
) -> Result<Next, AllocError>
    requires words { (unit_of code.table.now).words ≡ scopes.now.words }
    requires few { next.calls + effects.calls_in_effect (program_in code.table.now) (effect_of effect.now) < 2 ^ 64 }
    ensures items { OnOk result
        (Makes items.old.items items.new.items
        (effects.effect_items (within_of code.entry) scopes.now.scopes (effect_of effect.now) next.calls)) }
    ensures labels { IfOk result (λ after. after.labels ≡ next.labels) }
    ensures calls { IfOk result
        (λ after. after.calls
        ≡ next.calls + effects.calls_in_effect (program_in code.entry.table.now) (effect_of effect.now)) }
{
    put_effect(code, scopes, items, effect, next.calls)?;
    let calls = calls_in_effect(code.table, effect) + next.calls;
    Ok(Next {
        labels: next.labels,
        calls,
    })
}

// Puts what locals hold at first, and declares them.
fn put_declared(
    code: Code<'_, '_>,
    scopes: &mut Scopes<'_>,
    items: &mut Vec<Item>,
    next: Next,
    kind: Integer,
    locals: &[Local],
) -> Result<Next, AllocError>
    requires words { (unit_of code.table.now).words ≡ scopes.old.words }
    requires few { next.calls + effects.calls_in_locals (program_in code.table.now) (map local_of locals.now) < 2 ^ 64 }
    requires elements { elements_of_all (unit_of code.table.now).words (map local_of locals.now) ≤ most_elements }
    ensures items { OnOk result
        (Makes items.old.items items.new.items
        (effects.locals_items (within_of code.entry) kind scopes.old.scopes (map local_of locals.now) next.calls)) }
    ensures labels { IfOk result (λ after. after.labels ≡ next.labels) }
    ensures calls { IfOk result
        (λ after. after.calls
        ≡ next.calls + effects.calls_in_locals (program_in code.entry.table.now) (map local_of locals.now)) }
    ensures known { OnOk result (scopes.new ≡ with_declared kind scopes.old (map local_of locals.now)) }
{
    let calls = put_locals(code, scopes, items, kind, locals, next.calls)?;
    Ok(Next {
        labels: next.labels,
        calls,
    })
}

/// Puts a statement in which no statement stands.
pub fn put_plain(
    code: Code<'_, '_>,
    scopes: &mut Scopes<'_>,
    items: &mut Vec<Item>,
    targets: Targets,
    next: Next,
    statement: &Stmt,
) -> Result<Next, AllocError>
    requires words { (unit_of code.table.now).words ≡ scopes.old.words }
    requires few { next.calls + laws.calls_in (program_in code.table.now) (statement_of statement.now) < 2 ^ 64 }
    requires plain { is_plain (statement_of statement.now) ≡ true }
    requires elements { elements_in (unit_of code.table.now).words (statement_of statement.now) ≤ most_elements }
    ensures items { OnOk result
        (Makes items.old.items items.new.items
        (laws.items_of (within_of code.entry) scopes.old.scopes (statement_of statement.now) next.labels next.calls
        (around_of code.entry targets))) }
    ensures labels { IfOk result (λ after. after.labels ≡ next.labels + laws.labels_in (statement_of statement.now)) }
    ensures calls { IfOk result
        (λ after. after.calls
        ≡ next.calls + laws.calls_in (program_in code.entry.table.now) (statement_of statement.now)) }
    ensures known { OnOk result (scopes.new ≡ known_after scopes.old (statement_of statement.now)) }
{
    match statement {
        Stmt::Declare(_, kind, locals) => { put_declared(code, scopes, items, next, *kind, locals) }
        Stmt::Break(_) => {
            put_leaving(code, items, targets.leave)?;
            Ok(next)
        }
        Stmt::Continue(_) => {
            put_leaving(code, items, targets.again)?;
            Ok(next)
        }
        Stmt::Return(_, value) => put_returned(code, scopes, items, next, value),
        Stmt::Effect(effect) => put_done(code, scopes, items, next, effect),
        Stmt::Empty(_) => Ok(next),
        Stmt::Case(_, _) => Ok(next),
        Stmt::Default(_) => Ok(next),
        Stmt::Block(_) => Ok(next),
        Stmt::If(_, _, otherwise) => match otherwise {
            None => Ok(next),
            Some(_) => Ok(next),
        },
        Stmt::While(_, _) => Ok(next),
        Stmt::Do(_, _) => Ok(next),
        Stmt::For(first, _, _, _) => match first {
            None => Ok(next),
            Some(_) => Ok(next),
        },
        Stmt::Switch(_, _) => Ok(next),
    }
}
