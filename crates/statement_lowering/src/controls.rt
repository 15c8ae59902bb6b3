//! Statements with a part of their own: what is put before the part, and what after it.

ghost use Rattle.std.specs.Prelude.{◌≡◌, ◌<◌, ◌^◌, IfOk, OnOk};
ghost use Rattle.c_unit.specs.Units.{unit_of};
ghost use Rattle.c_scopes.specs.Views.{entered, left};
ghost use Rattle.object_layout.specs.Views.{program_in};
ghost use Rattle.condition_lowering.specs.declared.code.Code as codes;
ghost use Rattle.condition_lowering.specs.Views.{Makes, within_of};
ghost use Rattle.statement_lowering.specs.Views.{around_of};
ghost use Rattle.statement_lowering.specs.Controls.{after_part, around_part, before_part, calls_at, labels_after};
ghost use Rattle.statement_lowering.specs.Controls.{labels_at, last_label};

use crate::context::{Next, Targets};
use crate::loops::{begin_for, begin_while, calls_if, end_do, end_for, end_while, loop_targets};
use alf_program::Item;
use c_scopes::Scopes;
use c_unit::{Effect, Expr};
use condition_lowering::{Code, begin_if, end_else, end_if, end_then, put_label};
use object_layout::Table;
use std::alloc::AllocError;

/// A statement with a part of its own, but for the part.
#[derive(Clone, Copy)]
pub enum Control<'a> {
    /// An `if` without an `else`.
    If(&'a Expr),
    /// An `if`, up to its `else`.
    Then(&'a Expr),
    /// An `else`. The labels of its `if` are numbered from this on.
    Else(u64),
    While(&'a Expr),
    Do(&'a Expr),
    /// A `for` without its first part: its condition, and what is done after each turn.
    For(&'a Option<Expr>, &'a Option<Effect>),
}

/// Where a part begins: the numbers of its labels and calls, and where `break` and `continue` lead.
#[derive(Clone, Copy, Debug)]
pub struct Begun {
    pub next: Next,
    pub targets: Targets,
}

// Puts what stands before the part. The number of the first label of the part is given.
fn put_before(
    code: Code<'_, '_>,
    scopes: &Scopes<'_>,
    items: &mut Vec<Item>,
    control: Control<'_>,
    labels: u64,
) -> Result<u64, AllocError>
    requires words { (unit_of code.table.now).words ≡ scopes.now.words }
    requires few { labels_at control labels < 2 ^ 64 }
    ensures items { OnOk result
        (Makes items.old.items items.new.items
        (before_part (within_of code.entry) scopes.now.scopes control.entry labels)) }
    ensures labels { IfOk result (λ inner. inner ≡ labels_at control.entry labels) }
{
    match control {
        Control::If(condition) => begin_if(code, scopes, items, condition, labels, 2),
        Control::Then(condition) => begin_if(code, scopes, items, condition, labels, 3),
        Control::Else(_) => Ok(labels),
        Control::While(condition) => begin_while(code, scopes, items, condition, labels),
        Control::Do(_) => {
            put_label(code, items, labels)?;
            let inner = 3 + labels;
            Ok(inner)
        }
        Control::For(condition, _) => begin_for(code, scopes, items, condition, labels),
    }
}

// The number of the first call of the part.
fn first_call(table: &Table<'_>, control: Control<'_>, calls: u64) -> u64
    requires { calls_at (program_in table.now) control calls < 2 ^ 64 }
    ensures { result ≡ calls_at (program_in table.now) control.entry calls }
{
    match control {
        Control::If(_) => calls,
        Control::Then(_) => calls,
        Control::Else(_) => calls,
        Control::While(_) => calls,
        Control::Do(_) => calls,
        Control::For(_, last) => calls + calls_if(table, last),
    }
}

// Where `break` and `continue` lead in the part.
fn targets_in(control: Control<'_>, around: Targets, labels: u64) -> Targets
    requires { labels_at control labels < 2 ^ 64 }
    ensures { (code : codes.Code)
        → around_of code result ≡ around_part (within_of code) (around_of code around) control.entry labels }
{
    match control {
        Control::If(_) => around,
        Control::Then(_) => around,
        Control::Else(_) => around,
        Control::While(_) => {
            let end = 2 + labels;
            loop_targets(end, labels)
        }
        Control::Do(_) => {
            let end = 2 + labels;
            let test = 1 + labels;
            loop_targets(end, test)
        }
        Control::For(_, _) => {
            let end = 3 + labels;
            let further = 2 + labels;
            loop_targets(end, further)
        }
    }
}

/// Puts what stands before the part, and enters the scope of the part.
pub fn begin_part(
    code: Code<'_, '_>,
    scopes: &mut Scopes<'_>,
    items: &mut Vec<Item>,
    targets: Targets,
    next: Next,
    control: Control<'_>,
) -> Result<Begun, AllocError>
    requires words { (unit_of code.table.now).words ≡ scopes.old.words }
    requires labels { labels_at control next.labels < 2 ^ 64 }
    requires calls { calls_at (program_in code.table.now) control next.calls < 2 ^ 64 }
    ensures items { OnOk result
        (Makes items.old.items items.new.items
        (before_part (within_of code.entry) scopes.old.scopes control.entry next.labels)) }
    ensures labels { IfOk result (λ begun. begun.next.labels ≡ labels_at control.entry next.labels) }
    ensures calls { IfOk result
        (λ begun. begun.next.calls ≡ calls_at (program_in code.entry.table.now) control.entry next.calls) }
    ensures targets { IfOk result
        (λ begun. around_of code.entry begun.targets
        ≡ around_part (within_of code.entry) (around_of code.entry targets) control.entry next.labels) }
    ensures known { OnOk result (scopes.new ≡ entered scopes.old) }
{
    let labels = put_before(code, scopes, items, control, next.labels)?;
    let calls = first_call(code.table, control, next.calls);
    let targets = targets_in(control, targets, next.labels);
    scopes.enter()?;
    Ok(Begun {
        next: Next { labels, calls },
        targets,
    })
}

// Puts what stands after the part. The number of the next label is given.
fn put_after(
    code: Code<'_, '_>,
    scopes: &Scopes<'_>,
    items: &mut Vec<Item>,
    control: Control<'_>,
    first: Next,
    labels: u64,
) -> Result<u64, AllocError>
    requires words { (unit_of code.table.now).words ≡ scopes.now.words }
    requires own { last_label control first.labels < 2 ^ 64 }
    requires few { labels_after control labels < 2 ^ 64 }
    ensures items { OnOk result
        (Makes items.old.items items.new.items
        (after_part (within_of code.entry) scopes.now.scopes control.entry first.labels first.calls labels)) }
    ensures labels { IfOk result (λ after. after ≡ labels_after control.entry labels) }
{
    match control {
        Control::If(_) => {
            end_if(code, items, first.labels)?;
            Ok(labels)
        }
        Control::Then(_) => {
            end_then(code, items, first.labels)?;
            Ok(labels)
        }
        Control::Else(labels_of_if) => {
            end_else(code, items, labels_of_if)?;
            Ok(labels)
        }
        Control::While(_) => {
            end_while(code, items, first.labels)?;
            Ok(labels)
        }
        Control::Do(condition) => end_do(code, scopes, items, condition, first.labels, labels),
        Control::For(_, last) => {
            end_for(code, scopes, items, last, first)?;
            Ok(labels)
        }
    }
}

/// Leaves the scope of the part, and puts what stands after the part.
pub fn end_part(
    code: Code<'_, '_>,
    scopes: &mut Scopes<'_>,
    items: &mut Vec<Item>,
    control: Control<'_>,
    first: Next,
    after: Next,
) -> Result<Next, AllocError>
    requires words { (unit_of code.table.now).words ≡ scopes.old.words }
    requires own { last_label control first.labels < 2 ^ 64 }
    requires few { labels_after control after.labels < 2 ^ 64 }
    ensures items { OnOk result
        (Makes items.old.items items.new.items
        (after_part (within_of code.entry) (left scopes.old).scopes control.entry first.labels first.calls
        after.labels)) }
    ensures labels { IfOk result (λ next. next.labels ≡ labels_after control.entry after.labels) }
    ensures calls { IfOk result (λ next. next.calls ≡ after.calls) }
    ensures known { OnOk result (scopes.new ≡ left scopes.old) }
{
    scopes.leave()?;
    let labels = put_after(code, scopes, items, control, first, after.labels)?;
    Ok(Next {
        labels,
        calls: after.calls,
    })
}
