//! Statements in braces: what is put before them, and what after them.

ghost use Rattle.std.specs.Prelude.{◌≡◌, ◌<◌, ◌+◌, ◌^◌, ◌∷◌, map, Some, IfOk, OnOk};
ghost use Rattle.c_unit.specs.Tree.{expression_of, statement_of, statements_of};
ghost use Rattle.c_unit.specs.Units.{unit_of};
ghost use Rattle.c_scopes.specs.Views.{entered, left};
ghost use Rattle.c_lowered.specs.Statements as laws;
ghost use Rattle.condition_lowering.specs.Views.{Makes, within_of};
ghost use Rattle.statement_lowering.specs.Braces.{HasPlace, after_row, around_row, before_row, close_of, labels_at_row};
ghost use Rattle.statement_lowering.specs.Braces.{next_place, place_items, place_of};
ghost use Rattle.statement_lowering.specs.Views.{around_of};

use crate::context::Targets;
use crate::switch_labels::{labels_of, mark_of};
use crate::switches::{cases_in, put_mark, put_switch};
use alf_program::Item;
use c_scopes::Scopes;
use c_unit::{Expr, Stmt};
use condition_lowering::{Code, put_label};
use std::alloc::AllocError;

/// What statements in braces are.
#[derive(Clone, Copy)]
pub enum Braces<'a> {
    Block,
    /// The body of a switch on the value.
    Switch(&'a Expr),
}

/// Where a row begins: the number of its first label, where `break` and `continue` lead, and, in a switch, the
/// numbers of its first label and of the label after it.
#[derive(Clone, Copy, Debug)]
pub struct Opened {
    pub labels: u64,
    pub targets: Targets,
    pub place: Option<u64>,
    pub close: Option<u64>,
}

/// Puts the label of a switch that the statement is, if the labels of one are numbered from the place on. The next
/// place is given.
pub fn put_place(
    code: Code<'_, '_>,
    items: &mut Vec<Item>,
    statement: &Stmt,
    place: Option<u64>,
) -> Result<Option<u64>, AllocError>
    requires { HasPlace (next_place (statement_of statement.now) place) }
    ensures items { OnOk result
        (Makes items.old.items items.new.items
        (place_items (within_of code.entry) (statement_of statement.now) place)) }
    ensures next { IfOk result (λ next. next ≡ next_place (statement_of statement.now) place) }
{
    match place {
        None => Ok(None),
        Some(label) => {
            let mark = mark_of(statement);
            put_mark(code, items, mark, label)?;
            let next = labels_of(mark) + label;
            Ok(Some(next))
        }
    }
}

// Puts a switch, whose labels are numbered from this on.
fn open_switch(
    code: Code<'_, '_>,
    scopes: &Scopes<'_>,
    items: &mut Vec<Item>,
    targets: Targets,
    labels: u64,
    value: &Expr,
    row: &[Stmt],
) -> Result<Opened, AllocError>
    requires words { (unit_of code.table.now).words ≡ scopes.now.words }
    requires few { labels + laws.cases_in (statements_of (map statement_of row.now)) + 1 < 2 ^ 64 }
    ensures items { OnOk result
        (Makes items.old.items items.new.items
        (λ rest. laws.switch_item (within_of code.entry) scopes.now.scopes (expression_of value.now)
        (statements_of (map statement_of row.now)) labels
        (labels + laws.cases_in (statements_of (map statement_of row.now))) ∷ rest)) }
    ensures labels { IfOk result
        (λ opened. opened.labels ≡ labels + laws.cases_in (statements_of (map statement_of row.now)) + 1) }
    ensures leave { IfOk result
        (λ opened. opened.targets.leave ≡ Some (labels + laws.cases_in (statements_of (map statement_of row.now)))) }
    ensures again { IfOk result (λ opened. opened.targets.again ≡ targets.again) }
    ensures place { IfOk result (λ opened. opened.place ≡ Some labels) }
    ensures close { IfOk result
        (λ opened. opened.close ≡ Some (labels + laws.cases_in (statements_of (map statement_of row.now)))) }
{
    let end = labels + cases_in(row);
    let inner = end + 1;
    put_switch(code, scopes, items, value, row, labels, end)?;
    Ok(Opened {
        labels: inner,
        targets: Targets {
            leave: Some(end),
            again: targets.again,
        },
        place: Some(labels),
        close: Some(end),
    })
}

// Puts what stands before the row.
fn open(
    code: Code<'_, '_>,
    scopes: &Scopes<'_>,
    items: &mut Vec<Item>,
    targets: Targets,
    labels: u64,
    braces: Braces<'_>,
    row: &[Stmt],
) -> Result<Opened, AllocError>
    requires words { (unit_of code.table.now).words ≡ scopes.now.words }
    requires few { labels_at_row braces (statements_of (map statement_of row.now)) labels < 2 ^ 64 }
    ensures items { OnOk result
        (Makes items.old.items items.new.items
        (before_row (within_of code.entry) scopes.now.scopes braces.entry (statements_of (map statement_of row.now))
        labels)) }
    ensures labels { IfOk result
        (λ opened. opened.labels ≡ labels_at_row braces.entry (statements_of (map statement_of row.now)) labels) }
    ensures targets { IfOk result
        (λ opened. around_of code.entry opened.targets
        ≡ around_row (within_of code.entry) (around_of code.entry targets) braces.entry
        (statements_of (map statement_of row.now)) labels) }
    ensures place { IfOk result (λ opened. opened.place ≡ place_of braces.entry labels) }
    ensures close { IfOk result
        (λ opened. opened.close ≡ close_of braces.entry (statements_of (map statement_of row.now)) labels) }
{
    match braces {
        Braces::Block => Ok(Opened {
            labels,
            targets,
            place: None,
            close: None,
        }),
        Braces::Switch(value) => open_switch(code, scopes, items, targets, labels, value, row),
    }
}

/// Puts what stands before the row, and enters its scope.
pub fn open_row(
    code: Code<'_, '_>,
    scopes: &mut Scopes<'_>,
    items: &mut Vec<Item>,
    targets: Targets,
    labels: u64,
    braces: Braces<'_>,
    row: &[Stmt],
) -> Result<Opened, AllocError>
    requires words { (unit_of code.table.now).words ≡ scopes.old.words }
    requires few { labels_at_row braces (statements_of (map statement_of row.now)) labels < 2 ^ 64 }
    ensures items { OnOk result
        (Makes items.old.items items.new.items
        (before_row (within_of code.entry) scopes.old.scopes braces.entry (statements_of (map statement_of row.now))
        labels)) }
    ensures labels { IfOk result
        (λ opened. opened.labels ≡ labels_at_row braces.entry (statements_of (map statement_of row.now)) labels) }
    ensures targets { IfOk result
        (λ opened. around_of code.entry opened.targets
        ≡ around_row (within_of code.entry) (around_of code.entry targets) braces.entry
        (statements_of (map statement_of row.now)) labels) }
    ensures place { IfOk result (λ opened. opened.place ≡ place_of braces.entry labels) }
    ensures close { IfOk result
        (λ opened. opened.close ≡ close_of braces.entry (statements_of (map statement_of row.now)) labels) }
    ensures known { OnOk result (scopes.new ≡ entered scopes.old) }
{
    let opened = open(code, scopes, items, targets, labels, braces, row)?;
    scopes.enter()?;
    Ok(opened)
}

/// Leaves the scope of the row, and puts the label after it, if there is one.
pub fn close_row(
    code: Code<'_, '_>,
    scopes: &mut Scopes<'_>,
    items: &mut Vec<Item>,
    close: Option<u64>,
) -> Result<(), AllocError>
    ensures items { OnOk result (Makes items.old.items items.new.items (after_row (within_of code.entry) close)) }
    ensures known { OnOk result (scopes.new ≡ left scopes.old) }
{
    scopes.leave()?;
    match close {
        None => Ok(()),
        Some(close) => put_label(code, items, close),
    }
}
