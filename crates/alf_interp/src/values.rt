//! Values of expressions.

ghost use Rattle.std.specs.Prelude.{◌≡◌, ◌≤◌, ℕ, List, [], ◌∷◌, ◌++◌, Ok, IsSome, IfOk, IfErr, OnOk, length, map};
ghost use Rattle.std.specs.List.{AllByRecursion};
ghost use Rattle.alf_ops.specs.declared.history.RunEvent.{RunEvent};
ghost use Rattle.alf_ops.specs.declared.history.Value.{Value};
ghost use Rattle.alf_ops.specs.Table.{result_size, operand_sizes};
ghost use Rattle.alf_ops.specs.Values.{FitsValue, EachValueFits};
ghost use Rattle.alf_ops.specs.Pointers.{operands, outcome_of_operands};
ghost use Rattle.alf_program.specs.Tree.{expressions_of};
ghost use Rattle.alf_check.specs.declared.rows.FrameRow.{FrameRow};
ghost use Rattle.alf_check.specs.CheckedPrograms.{term_of};
ghost use Rattle.alf_check.specs.Kept.{HasSize};
ghost use Rattle.alf_values.specs.declared.fault.ValueFault.{ValueFault};
ghost use Rattle.alf_values.specs.Memories.{shapes};
ghost use Rattle.alf_values.specs.Standing.{StandsFor};
ghost use Rattle.alf_runs.specs.Expressions.{value_of, results_of};
ghost use Rattle.alf_interp.specs.Doing.{Remembers, Gives, GivesAll};
ghost use Rattle.alf_interp.specs.Typed.{IsTyped, AreTyped};

use alf_check::Term;
use alf_ops::{Op, RunFault, Value, apply_to_values};
use alf_runs::values_have_their_size;
use alf_values::{Frames, ValueFault};
use std::alloc::Global;

/// The value of an expression, or its first fault. Takes no memory.
#[cycle(evaluation)]
pub fn evaluate(frames: &Frames, term: &Term) -> Result<Value, RunFault>
    requires typed { IsTyped (term_of term.now) }
    requires remembers { Remembers frames.now }
    ensures { (history : List RunEvent) → StandsFor frames.now history
        → result ≡ value_of (shapes frames.now) history (term_of term.now) }
{
    match term {
        Term::Num(num) => Ok(Value::Int {
            size: num.size,
            bits: num.bits,
        }),
        Term::Addr(frame, offset) => Ok(Value::Ptr {
            frame: *frame,
            offset: *offset,
        }),
        Term::Load(size, at) => {
            let place = evaluate(frames, at)?;
            frames.load(place, *size)
        }
        Term::Apply(op, sizes, operands) => operate(frames, *op, sizes, operands),
    }
}

// The value of an operator at the values of its operands, or the first fault.
#[cycle(evaluation)]
fn operate(frames: &Frames, op: Op, sizes: &[u32], terms: &[Term]) -> Result<Value, RunFault>
    requires shaped { IsSome (result_size op sizes.now) }
    requires typed { AreTyped (operand_sizes op sizes.now) (expressions_of (map term_of terms.now)) }
    requires remembers { Remembers frames.now }
    ensures { (history : List RunEvent) → StandsFor frames.now history
        → result
        ≡ outcome_of_operands op sizes.now
        (operands (results_of (shapes frames.now) history (expressions_of (map term_of terms.now)))) }
{
    values_have_their_size();
    match terms {
        [] => unreachable!(),
        [a] => applied(op, sizes, &[evaluate(frames, a)]),
        [a, b] => applied(op, sizes, &[evaluate(frames, a), evaluate(frames, b)]),
        [a, b, c] => applied(
            op,
            sizes,
            &[
                evaluate(frames, a),
                evaluate(frames, b),
                evaluate(frames, c),
            ],
        ),
        [_, _, _, _, ..] => unreachable!(),
    }
}

// The value of an operator at these operands, or the first fault from left to right.
fn applied(op: Op, sizes: &[u32], results: &[Result<Value, RunFault>]) -> Result<Value, RunFault>
    requires some { 1 ≤ length results.now }
    requires few { length results.now ≤ 3 }
    requires shaped { IsSome (result_size op sizes.now) }
    requires fitting { (values : List Value) → operands results.now ≡ Ok values
        → EachValueFits (operand_sizes op sizes.now) values }
    ensures { result ≡ outcome_of_operands op sizes.now (operands results.now) }
{
    match results {
        [a] => {
            let a = (*a)?;
            apply_to_values(op, sizes, &[a])
        }
        [a, b] => {
            let (a, b) = ((*a)?, (*b)?);
            apply_to_values(op, sizes, &[a, b])
        }
        [a, b, c] => {
            let (a, b, c) = ((*a)?, (*b)?, (*c)?);
            apply_to_values(op, sizes, &[a, b, c])
        }
        _ => unreachable!(),
    }
}

/// The value of an expression, or the fault of the run.
pub fn value(frames: &Frames, term: &Term) -> Result<Value, ValueFault>
    requires typed { IsTyped (term_of term.now) }
    requires remembers { Remembers frames.now }
    ensures gives { (history : List RunEvent) → StandsFor frames.now history
        → Gives (value_of (shapes frames.now) history (term_of term.now)) result }
    ensures fits { (rows : List FrameRow) (function size : ℕ) → HasSize rows function size (term_of term.now)
        → IfOk result (λ value. FitsValue size value) }
{
    values_have_their_size();
    match evaluate(frames, term) {
        Ok(value) => Ok(value),
        Err(fault) => Err(ValueFault::Run(fault)),
    }
}

/// The values of expressions in a row, or the first fault of the run.
pub fn values(alloc: Global, frames: &Frames, terms: &[Term]) -> Result<Vec<Value>, ValueFault>
    requires typed { AllByRecursion IsTyped (map term_of terms.now) }
    requires remembers { Remembers frames.now }
    ensures { (history : List RunEvent) → StandsFor frames.now history
        → GivesAll (operands (map (value_of (shapes frames.now) history) (map term_of terms.now))) result }
{
    let mut found = Vec::new(alloc);
    let mut rest = terms;
    while let Some((term, others)) = rest.split_first() {
        let next = value(frames, term)?;
        push(&mut found, next)?;
        rest = others;
    }
    Ok(found)
}

// Adds a value.
fn push(values: &mut Vec<Value>, value: Value) -> Result<(), ValueFault>
    ensures added { OnOk result (values.new.items ≡ values.old.items ++ value ∷ []) }
    ensures refused { IfErr result (λ fault. fault ≡ ValueFault.Memory) }
{
    match values.push(value) {
        Ok(()) => Ok(()),
        Err(_) => Err(ValueFault::Memory),
    }
}
