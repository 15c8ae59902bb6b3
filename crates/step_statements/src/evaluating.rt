//! Values of expressions.

ghost use Rattle.std.specs.Prelude.{◌≡◌, IfOk, IfSome, IsSome, map};
ghost use Rattle.std.specs.List.{AllByRecursion};
ghost use Rattle.alf_ops.specs.Table.{result_size, operand_sizes};
ghost use Rattle.alf_program.specs.Tree.{Address, Load, Number, expressions_of};
ghost use Rattle.alf_check.specs.CheckedPrograms.{term_of};
ghost use Rattle.memory_rules.specs.Covers.{IsCellSize};
ghost use Rattle.pointer_rules.specs.Covering.{IsValue};
ghost use Rattle.memory_model.specs.KeptMemories.{memory_in, rows_of, IsMemory};
ghost use Rattle.transfer_rules.specs.Remains.{all_left, goes_on};
ghost use Rattle.transfer_rules.specs.Evaluating.{word_value, pointer_value, loaded, operated, value_at, values_at};
ghost use Rattle.transfer_rules.specs.Evaluating.{arguments_at};
ghost use Rattle.step_statements.specs.Typed.{IsTyped, AreTyped};
ghost use Rattle.step_statements.specs.Found.{found, founds};

use crate::operating::{at_one, at_three, at_two, before, no_operand};
use abstract_memory::AMem;
use alf_check::Term;
use alf_ops::Op;
use alf_program::Num;
use domain_core::FaultSet;
use interval_congruence::Strided;
use pointer_domain::AVal;
use std::alloc::{AllocError, Global};

/// A word.
fn word(alloc: Global, num: Num) -> (Option<AVal>, FaultSet)
    requires { IsTyped (Number num) }
    ensures { found result ≡ all_left (word_value num.size num.bits) }
{
    let value = AVal::word(alloc, Strided::one_word(num.size, num.bits));
    (Some(value), FaultSet::none())
}

/// A pointer.
fn pointer(alloc: Global, frame: u32, offset: u32) -> Result<(Option<AVal>, FaultSet), AllocError>
    ensures { IfOk result (λ answer. found answer ≡ all_left (pointer_value frame offset)) }
{
    let value = AVal::pointer(alloc, frame, Strided::one_word(32, offset as u64))?;
    Ok((Some(value), FaultSet::none()))
}

/// What a load through the address gives.
fn load(
    alloc: Global,
    memory: &AMem<'_>,
    place: (Option<AVal>, FaultSet),
    size: u32,
) -> Result<(Option<AVal>, FaultSet), AllocError>
    requires kept { IsMemory memory.now }
    requires place { IfSome place.0 (IsValue 32) }
    requires size { IsCellSize size }
    ensures { IfOk result
        (λ answer. found answer
        ≡ goes_on (found place) (loaded (rows_of memory.now.checked) (memory_in memory.now) size)) }
{
    let (at, faults) = place;
    match at {
        None => Ok((None, faults)),
        Some(at) => {
            let (value, more) = memory.load(alloc, &at, size)?;
            Ok((value, faults.union(more)))
        }
    }
}

/// What a load of a cell gives, as through the pointer to it.
fn load_cell(
    alloc: Global,
    memory: &AMem<'_>,
    frame: u32,
    offset: u32,
    size: u32,
) -> Result<(Option<AVal>, FaultSet), AllocError>
    requires kept { IsMemory memory.now }
    requires size { IsCellSize size }
    ensures { IfOk result
        (λ answer. found answer
        ≡ goes_on (all_left (pointer_value frame offset))
        (loaded (rows_of memory.now.checked) (memory_in memory.now) size)) }
{
    memory.load_cell(alloc, frame, offset, size)
}

/// The cell that the expression is the address of, where it is an address as it stands.
pub(crate) fn address_of(term: &Term) -> Option<(u32, u32)>
    ensures { IfSome result (λ cell. term_of term.now ≡ Address cell.0 cell.1) }
{
    match term {
        Term::Num(_) => None,
        Term::Addr(frame, offset) => Some((*frame, *offset)),
        Term::Load(_, _) => None,
        Term::Apply(_, _, _) => None,
    }
}

/// What the expression gives over the memory: its value, where some run goes on, and the faults.
#[cycle(evaluation)]
pub fn evaluate(
    alloc: Global,
    memory: &AMem<'_>,
    term: &Term,
) -> Result<(Option<AVal>, FaultSet), AllocError>
    requires typed { IsTyped (term_of term.now) }
    requires kept { IsMemory memory.now }
    ensures { IfOk result
        (λ answer. found answer ≡ value_at (rows_of memory.now.checked) (memory_in memory.now) (term_of term.now)) }
{
    match term {
        Term::Num(num) => Ok(word(alloc, *num)),
        Term::Addr(frame, offset) => pointer(alloc, *frame, *offset),
        Term::Load(size, at) => evaluate_load(alloc, memory, *size, at),
        Term::Apply(op, sizes, operands) => operate(alloc, memory, *op, sizes, operands),
    }
}

/// What a load gives, whose address is evaluated first where it is no address as it stands.
#[cycle(evaluation)]
fn evaluate_load(
    alloc: Global,
    memory: &AMem<'_>,
    size: u32,
    at: &Term,
) -> Result<(Option<AVal>, FaultSet), AllocError>
    requires typed { IsTyped (Load size (term_of at.now)) }
    requires kept { IsMemory memory.now }
    ensures { IfOk result
        (λ answer. found answer
        ≡ value_at (rows_of memory.now.checked) (memory_in memory.now) (Load size (term_of at.now))) }
{
    if let Some((frame, offset)) = address_of(at) {
        return load_cell(alloc, memory, frame, offset, size);
    }
    let place = evaluate(alloc, memory, at)?;
    load(alloc, memory, place, size)
}

/// What an operator gives at its operands, which are evaluated from left to right.
#[cycle(evaluation)]
fn operate(
    alloc: Global,
    memory: &AMem<'_>,
    op: Op,
    sizes: &[u32],
    terms: &[Term],
) -> Result<(Option<AVal>, FaultSet), AllocError>
    requires shaped { IsSome (result_size op sizes.now) }
    requires typed { AreTyped (operand_sizes op sizes.now) (expressions_of (map term_of terms.now)) }
    requires kept { IsMemory memory.now }
    ensures { IfOk result
        (λ answer. found answer
        ≡ goes_on
        (values_at (rows_of memory.now.checked) (memory_in memory.now) (expressions_of (map term_of terms.now)))
        (operated op sizes.now)) }
{
    match terms {
        [] => unreachable!(),
        [a] => {
            let a = evaluate(alloc, memory, a)?;
            at_one(alloc, op, sizes, a)
        }
        [a, b] => {
            let a = evaluate(alloc, memory, a)?;
            let b = evaluate(alloc, memory, b)?;
            at_two(alloc, op, sizes, a, b)
        }
        [a, b, c] => {
            let a = evaluate(alloc, memory, a)?;
            let b = evaluate(alloc, memory, b)?;
            let c = evaluate(alloc, memory, c)?;
            at_three(alloc, op, sizes, a, b, c)
        }
        [_, _, _, _, ..] => unreachable!(),
    }
}

/// What arguments of a call give over the memory, from left to right: their values, where some run goes on, and the
/// faults.
pub fn evaluate_arguments(
    alloc: Global,
    memory: &AMem<'_>,
    terms: &[Term],
) -> Result<(Option<Vec<AVal>>, FaultSet), AllocError>
    requires typed { AllByRecursion IsTyped (map term_of terms.now) }
    requires kept { IsMemory memory.now }
    ensures { IfOk result
        (λ answer. founds answer
        ≡ arguments_at (rows_of memory.now.checked) (memory_in memory.now) (map term_of terms.now)) }
{
    let Some((term, others)) = terms.split_first() else {
        return Ok(no_operand(alloc));
    };
    let first = evaluate(alloc, memory, term)?;
    let rest = evaluate_arguments(alloc, memory, others)?;
    let all = before(first, rest)?;
    Ok(all)
}
