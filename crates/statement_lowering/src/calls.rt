//! Calls.

ghost use Rattle.std.specs.Prelude.{◌≡◌, map, IfOk, OnOk};
ghost use Rattle.alf_program.specs.Tree as alf;
ghost use Rattle.c_unit.specs.Tree.{call_of, expression_of};
ghost use Rattle.c_unit.specs.Units.{unit_of};
ghost use Rattle.c_lowered.specs.Names as names;
ghost use Rattle.c_lowered.specs.Effects as laws;
ghost use Rattle.object_layout.specs.Views.{program_in};
ghost use Rattle.condition_lowering.specs.Views.{Makes, within_of};
ghost use Rattle.statement_lowering.specs.Arguments as parts;

use alf_program::{Expr as Term, Item, Stmt as Act};
use c_scopes::Scopes;
use c_unit::{Call, Expr, Outcome, Parameter, Scalar};
use condition_lowering::{Code, put_act};
use expression_lowering::value_of;
use flow_base::Name;
use object_layout::numbered_name;
use operator_lowering::{address, cut_to, loaded, whole};
use std::alloc::AllocError;

/// How many frames the result of a call takes.
pub fn calls_of_outcome(given: Outcome) -> u64
    ensures { result ≡ laws.calls_of_outcome given }
{
    match given {
        Outcome::Nothing => 0,
        Outcome::Integer(_) => 1,
    }
}

// An argument, as the first of these parameters has it; where there is none, as it is.
fn argument(
    code: Code<'_, '_>,
    scopes: &Scopes<'_>,
    e: &Expr,
    parameters: &[Parameter],
) -> Result<Term, AllocError>
    requires { (unit_of code.table.now).words ≡ scopes.now.words }
    ensures { IfOk result
        (λ term. alf.expression_of term
        ≡ parts.argument_of (program_in code.entry.table.now) scopes.now.scopes (expression_of e.now) parameters.now) }
{
    let value = value_of(code.alloc, code.table, scopes, e)?;
    let value = value.value;
    match parameters.split_first() {
        Some((parameter, _)) => {
            let term = cut_to(code.alloc, parameter.kind, value)?;
            Ok(term)
        }
        None => Ok(value),
    }
}

// The arguments of a call, each as its parameter has it.
#[tactic(auto, using(crate::proofs::Steps::next_argument))]
fn arguments(
    code: Code<'_, '_>,
    scopes: &Scopes<'_>,
    given: &[Expr],
    parameters: &[Parameter],
) -> Result<Vec<Term>, AllocError>
    requires { (unit_of code.table.now).words ≡ scopes.now.words }
    ensures { IfOk result
        (λ terms. map alf.expression_of terms.items
        ≡ laws.arguments (program_in code.entry.table.now) scopes.now.scopes (map expression_of given.now)
        parameters.now) }
{
    let mut terms = Vec::new(code.alloc);
    let mut taken = parameters;
    let mut rest = given;
    'given: while let Some((e, others)) = rest.split_first() {
        let term = argument(code, scopes, e, taken)?;
        terms.push(term)?;
        taken = others_of(taken);
        rest = others;
    }
    Ok(terms)
}

// The parameters after the first.
fn others_of(parameters: &[Parameter]) -> &[Parameter]
    ensures { result.now ≡ parts.others_of parameters.now }
{
    match parameters.split_first() {
        Some((_, others)) => others,
        None => parameters,
    }
}

// The name of the frame of the result of the function's call of this number.
fn call_name(code: Code<'_, '_>, number: u64) -> Result<Name, AllocError>
    ensures { IfOk result
        (λ name. name ≡ names.call_name (program_in code.entry.table.now) code.entry.function number) }
{
    numbered_name(
        code.alloc,
        code.table.function_name(code.function),
        b"$",
        number,
    )
}

// The frame that a result goes to.
fn result_frame(
    code: Code<'_, '_>,
    given: Outcome,
    number: u64,
) -> Result<Option<(Name, u32)>, AllocError>
    ensures { IfOk result
        (λ frame. frame
        ≡ laws.result_frame given (names.call_name (program_in code.entry.table.now) code.entry.function number)) }
{
    match given {
        Outcome::Nothing => Ok(None),
        Outcome::Integer(_) => {
            let name = call_name(code, number)?;
            Ok(Some((name, 0)))
        }
    }
}

/// Puts a call of this number.
pub fn put_call(
    code: Code<'_, '_>,
    scopes: &Scopes<'_>,
    items: &mut Vec<Item>,
    call: &Call,
    number: u64,
) -> Result<(), AllocError>
    requires { (unit_of code.table.now).words ≡ scopes.now.words }
    ensures { OnOk result
        (Makes items.old.items items.new.items
        (laws.call_items (within_of code.entry) scopes.now.scopes (call_of call.now) number)) }
{
    let name = Name::new(code.alloc, code.table.words().text_at(call.name))?;
    let terms = arguments(
        code,
        scopes,
        &call.arguments,
        code.table.parameters_of(call.name),
    )?;
    let frame = result_frame(code, code.table.result_of(call.name), number)?;
    put_act(items, Act::Call(name, terms, frame))?;
    Ok(())
}

/// What a call of this number gave, as an expression has it.
pub fn call_value(code: Code<'_, '_>, call: &Call, number: u64) -> Result<Term, AllocError>
    ensures { IfOk result
        (λ term. alf.expression_of term ≡ laws.call_value (within_of code.entry) (call_of call.now) number) }
{
    match code.table.result_of(call.name) {
        Outcome::Nothing => Ok(whole(0)),
        Outcome::Integer(kind) => {
            let name = call_name(code, number)?;
            let at = address(code.alloc, name.bytes(), 0)?;
            let value = loaded(code.alloc, Scalar::Integer(kind), at)?;
            Ok(value)
        }
    }
}
