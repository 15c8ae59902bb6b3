//! Labels of a switch.

ghost use Rattle.std.specs.Prelude.{◌≡◌, ◌<◌, ◌+◌, ◌^◌, ℕ, List, ◌∷◌, ◌++◌, map, IfOk, OnOk};
ghost use Rattle.alf_program.specs.declared.program.Num as num;
ghost use Rattle.c_unit.specs.Tree.{expression_of, statement_of, statements_of};
ghost use Rattle.c_unit.specs.Units.{unit_of};
ghost use Rattle.c_rules.specs.Names as worths;
ghost use Rattle.c_rules.specs.Statements as checks;
ghost use Rattle.c_lowered.specs.Conditions as names;
ghost use Rattle.c_lowered.specs.Statements as laws;
ghost use Rattle.condition_lowering.specs.Views.{Makes, within_of};
ghost use Rattle.statement_lowering.specs.SwitchMarks.{targets_by, case_by};

use crate::switch_labels::{Mark, is_default, labels_of, mark_of};
use alf_program::{Item, Num, Stmt as Act};
use c_scopes::{Scopes, Words};
use c_tokens::Worth;
use c_unit::{Constant, Expr, Integer, Stmt};
use condition_lowering::{Code, label_name, put_act, put_label};
use expression_lowering::{kind_or_int, value_of};
use flow_base::Name;
use operator_lowering::{is_signed, left_type};
use std::alloc::AllocError;

// The number of a constant.
fn number_of(worth: Worth) -> u32
    ensures { result ≡ worths.number_of worth }
{
    match worth {
        Worth::NoConstant => 0,
        Worth::TooLarge => 0,
        Worth::Int(number) => number,
        Worth::UnsignedInt(number) => number,
    }
}

// What a label is worth, as 32 bits.
fn label_of(words: &Words<'_>, constant: Constant) -> u32
    ensures { result ≡ checks.label_of words.now constant }
{
    let number = number_of(words.worth_at(constant.token));
    if constant.minus {
        number.wrapping_neg()
    } else {
        number
    }
}

/// How many labels of a switch stand in its body.
pub fn cases_in(body: &[Stmt]) -> u64
    requires { laws.cases_in (statements_of (map statement_of body.now)) < 2 ^ 64 }
    ensures { result ≡ laws.cases_in (statements_of (map statement_of body.now)) }
{
    let mut count: u64 = 0;
    let mut rest = body;
    'cases: while let Some((statement, others)) = rest.split_first() {
        count += labels_of(mark_of(statement));
        rest = others;
    }
    count
}

// The target of a constant, at the type of the switch.
fn target(
    code: Code<'_, '_>,
    kind: Integer,
    constant: Constant,
    label: u64,
) -> Result<(Num, Name), AllocError>
    ensures { IfOk result
        (λ target. target
        ≡ laws.target (within_of code.entry) kind (checks.label_of (unit_of code.entry.table.now).words constant)
        label) }
{
    let num = Num {
        signed: is_signed(kind),
        size: 32,
        bits: u64::from(label_of(code.table.words(), constant)),
    };
    let name = label_name(code, label)?;
    Ok((num, name))
}

// Puts the target of a label with a constant.
fn put_target(
    code: Code<'_, '_>,
    targets: &mut Vec<(Num, Name)>,
    kind: Integer,
    mark: Mark,
    label: u64,
) -> Result<(), AllocError>
    ensures { OnOk result
        ((others : List (num.Num × List ℕ))
        → targets.new.items ++ others ≡ targets.old.items ++ targets_by mark (within_of code.entry) kind label others) }
{
    match mark {
        Mark::Case(constant) => {
            let target = target(code, kind, constant, label)?;
            targets.push(target)?;
            Ok(())
        }
        Mark::Default => Ok(()),
        Mark::Neither => Ok(()),
    }
}

// The targets of a switch on a value of the type, whose labels are numbered from `first` on.
fn targets_in(
    code: Code<'_, '_>,
    kind: Integer,
    first: u64,
    body: &[Stmt],
) -> Result<Vec<(Num, Name)>, AllocError>
    requires { first + laws.cases_in (statements_of (map statement_of body.now)) < 2 ^ 64 }
    ensures { IfOk result
        (λ targets. targets.items
        ≡ laws.targets_in (within_of code.entry) kind first (statements_of (map statement_of body.now))) }
{
    let mut targets = Vec::new(code.alloc);
    let mut label = first;
    let mut rest = body;
    'targets: while let Some((statement, others)) = rest.split_first() {
        let mark = mark_of(statement);
        put_target(code, &mut targets, kind, mark, label)?;
        label += labels_of(mark);
        rest = others;
    }
    Ok(targets)
}

// The number of the default's label; where there is none, that of this one.
fn default_in(code: Code<'_, '_>, first: u64, otherwise: u64, body: &[Stmt]) -> u64
    requires { first + laws.cases_in (statements_of (map statement_of body.now)) < 2 ^ 64 }
    ensures { names.label (within_of code.entry) result
        ≡ laws.default_in (within_of code.entry) first otherwise (statements_of (map statement_of body.now)) }
{
    let _table = code.table;
    let mut label = first;
    let mut rest = body;
    'labels: while let Some((statement, others)) = rest.split_first() {
        let mark = mark_of(statement);
        if is_default(mark) {
            return label;
        }
        label += labels_of(mark);
        rest = others;
    }
    otherwise
}

/// Puts the switch itself: its labels are numbered from `first` on, and `otherwise` is where it leads without a
/// default.
pub fn put_switch(
    code: Code<'_, '_>,
    scopes: &Scopes<'_>,
    items: &mut Vec<Item>,
    value: &Expr,
    body: &[Stmt],
    first: u64,
    otherwise: u64,
) -> Result<(), AllocError>
    requires words { (unit_of code.table.now).words ≡ scopes.now.words }
    requires few { first + laws.cases_in (statements_of (map statement_of body.now)) < 2 ^ 64 }
    ensures { OnOk result
        (Makes items.old.items items.new.items
        (λ rest. laws.switch_item (within_of code.entry) scopes.now.scopes (expression_of value.now)
        (statements_of (map statement_of body.now)) first otherwise ∷ rest)) }
{
    let value = value_of(code.alloc, code.table, scopes, value)?;
    let kind = left_type(kind_or_int(value.kind));
    let targets = targets_in(code, kind, first, body)?;
    let default = default_in(code, first, otherwise, body);
    let default = label_name(code, default)?;
    put_act(items, Act::Switch(value.value, targets, default))?;
    Ok(())
}

/// Puts the label of a case or a default, if this is one.
pub fn put_mark(
    code: Code<'_, '_>,
    items: &mut Vec<Item>,
    mark: Mark,
    label: u64,
) -> Result<(), AllocError>
    ensures { OnOk result (Makes items.old.items items.new.items (case_by mark (within_of code.entry) label)) }
{
    match mark {
        Mark::Case(_) => put_label(code, items, label),
        Mark::Default => put_label(code, items, label),
        Mark::Neither => Ok(()),
    }
}
