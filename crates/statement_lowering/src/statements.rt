//! Statements, and those in a row.

ghost use Rattle.std.specs.Prelude.{◌≡◌, ◌≤◌, ◌+◌, ◌<◌, ◌^◌, None, ◌∷◌, map, IfOk, OnOk};
ghost use Rattle.c_unit.specs.Limits.{most_elements};
ghost use Rattle.c_unit.specs.Tree.{statement_of, statements_of};
ghost use Rattle.c_unit.specs.Units.{unit_of};
ghost use Rattle.c_rules.specs.Counts.{elements_in, all_elements_in};
ghost use Rattle.c_lowered.specs.Statements as laws;
ghost use Rattle.c_lowered.specs.Programs as programs;
ghost use Rattle.object_layout.specs.Views.{program_in};
ghost use Rattle.condition_lowering.specs.Views.{Makes, within_of};
ghost use Rattle.statement_lowering.specs.Afterwards.{Stays};
ghost use Rattle.statement_lowering.specs.Braces.{HasPlaces, braced_items, labels_at_row, row_items};
ghost use Rattle.statement_lowering.specs.Controls.{calls_at, control_items, labels_after, labels_at, last_label};
ghost use Rattle.statement_lowering.specs.Views.{around_of, known_after};

use crate::braces::{Braces, close_row, open_row, put_place};
use crate::context::{Next, Targets};
use crate::controls::{Control, begin_part, end_part};
use crate::plain::put_plain;
use crate::returns::put_last_return;
use alf_program::Item;
use c_scopes::Scopes;
use c_unit::{Outcome, Stmt};
use condition_lowering::Code;
use std::alloc::AllocError;

/// Puts the items of a function's block and of its end. The scopes are those where the block begins, of which the
/// innermost has the parameters.
pub fn put_body(
    code: Code<'_, '_>,
    scopes: &mut Scopes<'_>,
    items: &mut Vec<Item>,
    given: Outcome,
    body: &[Stmt],
) -> Result<(), AllocError>
    requires words { (unit_of code.table.now).words ≡ scopes.old.words }
    requires labels { laws.labels_in_all (statements_of (map statement_of body.now)) < 2 ^ 64 }
    requires calls { laws.calls_in_all (program_in code.table.now) (statements_of (map statement_of body.now))
        < 2 ^ 64 }
    requires elements { all_elements_in (unit_of code.table.now).words (statements_of (map statement_of body.now))
        ≤ most_elements }
    ensures items { OnOk result
        (Makes items.old.items items.new.items
        (λ rest. laws.all_items_of (within_of code.entry) scopes.old.scopes (statements_of (map statement_of body.now))
        0 0 programs.nowhere (programs.last_return given ∷ rest))) }
    ensures stays { OnOk result (Stays scopes.old scopes.new) }
{
    let nowhere = Targets {
        leave: None,
        again: None,
    };
    let next = Next {
        labels: 0,
        calls: 0,
    };
    put_row(code, scopes, items, nowhere, next, None, body)?;
    put_last_return(code, items, given)?;
    Ok(())
}

// Puts statements in a row. In the body of a switch its labels are numbered from the place on.
#[cycle(statements)]
fn put_row(
    code: Code<'_, '_>,
    scopes: &mut Scopes<'_>,
    items: &mut Vec<Item>,
    targets: Targets,
    next: Next,
    place: Option<u64>,
    row: &[Stmt],
) -> Result<Next, AllocError>
    requires words { (unit_of code.table.now).words ≡ scopes.old.words }
    requires labels { next.labels + laws.labels_in_all (statements_of (map statement_of row.now)) < 2 ^ 64 }
    requires calls { next.calls
        + laws.calls_in_all (program_in code.table.now) (statements_of (map statement_of row.now)) < 2 ^ 64 }
    requires places { HasPlaces place (statements_of (map statement_of row.now)) }
    requires elements { all_elements_in (unit_of code.table.now).words (statements_of (map statement_of row.now))
        ≤ most_elements }
    ensures items { OnOk result
        (Makes items.old.items items.new.items
        (row_items (within_of code.entry) scopes.old.scopes (statements_of (map statement_of row.now)) place next.labels
        next.calls (around_of code.entry targets))) }
    ensures labels { IfOk result
        (λ after. after.labels ≡ next.labels + laws.labels_in_all (statements_of (map statement_of row.now))) }
    ensures calls { IfOk result
        (λ after. after.calls
        ≡ next.calls + laws.calls_in_all (program_in code.entry.table.now) (statements_of (map statement_of row.now))) }
    ensures stays { OnOk result (Stays scopes.old scopes.new) }
{
    let mut here = place;
    let mut after = next;
    for statement in row {
        here = put_place(code, items, statement, here)?;
        after = put_statement(code, scopes, items, targets, after, statement)?;
    }
    Ok(after)
}

// Puts statements in braces.
#[cycle(statements)]
#[tactic(auto, using(crate::proofs::Scopes::left_row))]
fn put_braced(
    code: Code<'_, '_>,
    scopes: &mut Scopes<'_>,
    items: &mut Vec<Item>,
    targets: Targets,
    next: Next,
    row: &[Stmt],
    braces: Braces<'_>,
) -> Result<Next, AllocError>
    requires words { (unit_of code.table.now).words ≡ scopes.old.words }
    requires labels { labels_at_row braces (statements_of (map statement_of row.now)) next.labels
        + laws.labels_in_all (statements_of (map statement_of row.now)) < 2 ^ 64 }
    requires calls { next.calls
        + laws.calls_in_all (program_in code.table.now) (statements_of (map statement_of row.now)) < 2 ^ 64 }
    requires elements { all_elements_in (unit_of code.table.now).words (statements_of (map statement_of row.now))
        ≤ most_elements }
    ensures items { OnOk result
        (Makes items.old.items items.new.items
        (braced_items (within_of code.entry) scopes.old.scopes braces.entry (statements_of (map statement_of row.now))
        next.labels next.calls (around_of code.entry targets))) }
    ensures labels { IfOk result
        (λ after. after.labels
        ≡ labels_at_row braces.entry (statements_of (map statement_of row.now)) next.labels
        + laws.labels_in_all (statements_of (map statement_of row.now))) }
    ensures calls { IfOk result
        (λ after. after.calls
        ≡ next.calls + laws.calls_in_all (program_in code.entry.table.now) (statements_of (map statement_of row.now))) }
    ensures same { OnOk result (scopes.new ≡ scopes.old) }
{
    let opened = open_row(code, scopes, items, targets, next.labels, braces, row)?;
    let within = Next {
        labels: opened.labels,
        calls: next.calls,
    };
    let after = put_row(
        code,
        scopes,
        items,
        opened.targets,
        within,
        opened.place,
        row,
    )?;
    close_row(code, scopes, items, opened.close)?;
    Ok(after)
}

// Puts a statement with a part of its own.
#[cycle(statements)]
#[tactic(auto, using(crate::proofs::Scopes::left_after))]
fn put_controlled(
    code: Code<'_, '_>,
    scopes: &mut Scopes<'_>,
    items: &mut Vec<Item>,
    targets: Targets,
    next: Next,
    part: &Stmt,
    control: Control<'_>,
) -> Result<Next, AllocError>
    requires words { (unit_of code.table.now).words ≡ scopes.old.words }
    requires own { last_label control next.labels < 2 ^ 64 }
    requires labels { labels_after control (labels_at control next.labels + laws.labels_in (statement_of part.now))
        < 2 ^ 64 }
    requires calls { calls_at (program_in code.table.now) control next.calls
        + laws.calls_in (program_in code.table.now) (statement_of part.now) < 2 ^ 64 }
    requires elements { elements_in (unit_of code.table.now).words (statement_of part.now) ≤ most_elements }
    ensures items { OnOk result
        (Makes items.old.items items.new.items
        (control_items (within_of code.entry) scopes.old.scopes control.entry (statement_of part.now) next.labels
        next.calls (around_of code.entry targets))) }
    ensures labels { IfOk result
        (λ after. after.labels
        ≡ labels_after control.entry (labels_at control.entry next.labels + laws.labels_in (statement_of part.now))) }
    ensures calls { IfOk result
        (λ after. after.calls
        ≡ calls_at (program_in code.entry.table.now) control.entry next.calls
        + laws.calls_in (program_in code.entry.table.now) (statement_of part.now)) }
    ensures same { OnOk result (scopes.new ≡ scopes.old) }
{
    let begun = begin_part(code, scopes, items, targets, next, control)?;
    let middle = put_statement(code, scopes, items, begun.targets, begun.next, part)?;
    let after = end_part(code, scopes, items, control, next, middle)?;
    Ok(after)
}

// Puts a statement.
#[cycle(statements)]
#[tactic(auto, using(crate::proofs::Scopes::left_after))]
fn put_statement(
    code: Code<'_, '_>,
    scopes: &mut Scopes<'_>,
    items: &mut Vec<Item>,
    targets: Targets,
    next: Next,
    statement: &Stmt,
) -> Result<Next, AllocError>
    requires words { (unit_of code.table.now).words ≡ scopes.old.words }
    requires labels { next.labels + laws.labels_in (statement_of statement.now) < 2 ^ 64 }
    requires calls { next.calls + laws.calls_in (program_in code.table.now) (statement_of statement.now) < 2 ^ 64 }
    requires elements { elements_in (unit_of code.table.now).words (statement_of statement.now) ≤ most_elements }
    ensures items { OnOk result
        (Makes items.old.items items.new.items
        (laws.items_of (within_of code.entry) scopes.old.scopes (statement_of statement.now) next.labels next.calls
        (around_of code.entry targets))) }
    ensures labels { IfOk result (λ after. after.labels ≡ next.labels + laws.labels_in (statement_of statement.now)) }
    ensures calls { IfOk result
        (λ after. after.calls
        ≡ next.calls + laws.calls_in (program_in code.entry.table.now) (statement_of statement.now)) }
    ensures known { OnOk result (scopes.new ≡ known_after scopes.old (statement_of statement.now)) }
{
    match statement {
        Stmt::Block(body) => {
            let braces = Braces::Block;
            let after = put_braced(code, scopes, items, targets, next, body, braces)?;
            Ok(after)
        }
        Stmt::Switch(value, body) => {
            let braces = Braces::Switch(value);
            let after = put_braced(code, scopes, items, targets, next, body, braces)?;
            Ok(after)
        }
        Stmt::If(condition, body, otherwise) => match otherwise {
            None => {
                let control = Control::If(condition);
                put_controlled(code, scopes, items, targets, next, body, control)
            }
            Some(otherwise) => {
                let first = Control::Then(condition);
                let middle = put_controlled(code, scopes, items, targets, next, body, first)?;
                let second = Control::Else(next.labels);
                let after = put_controlled(
                    code, scopes, items, targets, middle, otherwise, second,
                )?;
                Ok(after)
            }
        },
        Stmt::While(condition, body) => {
            let control = Control::While(condition);
            put_controlled(code, scopes, items, targets, next, body, control)
        }
        Stmt::Do(body, condition) => {
            let control = Control::Do(condition);
            put_controlled(code, scopes, items, targets, next, body, control)
        }
        Stmt::For(first, condition, last, body) => {
            let control = Control::For(condition, last);
            match first {
                None => put_controlled(code, scopes, items, targets, next, body, control),
                Some(first) => {
                    scopes.enter()?;
                    let middle = put_statement(code, scopes, items, targets, next, first)?;
                    let after = put_controlled(
                        code, scopes, items, targets, middle, body, control,
                    )?;
                    scopes.leave()?;
                    Ok(after)
                }
            }
        }
        Stmt::Empty(_)
        | Stmt::Declare(_, _, _)
        | Stmt::Case(_, _)
        | Stmt::Default(_)
        | Stmt::Break(_)
        | Stmt::Continue(_)
        | Stmt::Return(_, _)
        | Stmt::Effect(_) => put_plain(code, scopes, items, targets, next, statement),
    }
}
