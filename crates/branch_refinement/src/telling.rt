//! What a switch's expression tells of memory.

ghost use Rattle.std.specs.Prelude.{◌≡◌, true, false, IfOk, Some, map};
ghost use Rattle.alf_program.specs.Tree.{Load, Apply, expressions_of};
ghost use Rattle.alf_check.specs.CheckedPrograms.{term_of};
ghost use Rattle.memory_model.specs.KeptMemories.{memory_in, rows_of, IsMemory};
ghost use Rattle.transfer_rules.specs.Evaluating.{value_at};
ghost use Rattle.transfer_rules.specs.Refining.{is_extension as is_extension_of, loaded_cell};
ghost use Rattle.step_statements.specs.Typed.{IsTyped};
ghost use Rattle.branch_refinement.specs.Refinements.{of_place, IsComparing, IsRefinement};

use crate::places::place_at;
use crate::refinements::{Place, Refinement, Told};
use crate::relations::{is_extension, relation_of};
use crate::sides::{cell_where, extension, side_of, words_alone};
use abstract_memory::AMem;
use alf_check::Term;
use alf_ops::Op;
use domain_core::Rel;
use pointer_domain::AVal;
use std::alloc::{AllocError, Global};
use step_statements::evaluate;

/// What an expression tells that is no comparison.
fn by_place(place: Option<Place>) -> Refinement
    ensures { result ≡ of_place place }
{
    match place {
        None => Refinement::Nothing,
        Some(place) => Refinement::At(place),
    }
}

/// The cell of a load that gives this value.
fn given_cell(
    alloc: Global,
    memory: &AMem<'_>,
    size: u32,
    at: &Term,
    given: &AVal,
) -> Result<Option<(u32, u32)>, AllocError>
    requires kept { IsMemory memory.now }
    requires typed { IsTyped (Load size (term_of at.now)) }
    requires given { (value_at (rows_of memory.now.checked) (memory_in memory.now) (Load size (term_of at.now))).left
        ≡ Some given.now }
    ensures { IfOk result
        (λ cell. cell
        ≡ loaded_cell (rows_of memory.now.checked) (memory_in memory.now) size
        (value_at (rows_of memory.now.checked) (memory_in memory.now) (term_of at.now)).left) }
{
    let (at, _) = evaluate(alloc, memory, at)?;
    match at {
        None => Ok(None),
        Some(at) => Ok(cell_where(memory, words_alone(given), &at, size)),
    }
}

/// What a load tells.
fn of_load(
    alloc: Global,
    memory: &AMem<'_>,
    size: u32,
    at: &Term,
    given: &AVal,
) -> Result<Told, AllocError>
    requires kept { IsMemory memory.now }
    requires typed { IsTyped (Load size (term_of at.now)) }
    requires given { (value_at (rows_of memory.now.checked) (memory_in memory.now) (Load size (term_of at.now))).left
        ≡ Some given.now }
    ensures { IfOk result
        (IsRefinement (rows_of memory.now.checked) (memory_in memory.now) (Load size (term_of at.now))) }
{
    let cell = given_cell(alloc, memory, size, at, given)?;
    Ok(Told::of(by_place(place_at(cell, size, false))))
}

/// What an extension tells.
fn of_extension(
    alloc: Global,
    memory: &AMem<'_>,
    op: Op,
    sizes: &[u32],
    operands: &[Term],
) -> Result<Told, AllocError>
    requires kept { IsMemory memory.now }
    requires typed { IsTyped (Apply op sizes.now (expressions_of (map term_of operands.now))) }
    requires extends { is_extension_of op ≡ true }
    ensures { IfOk result
        (IsRefinement (rows_of memory.now.checked) (memory_in memory.now)
        (Apply op sizes.now (expressions_of (map term_of operands.now)))) }
{
    let side = extension(alloc, memory, op, sizes, operands)?;
    Ok(Told::of(by_place(side.place)))
}

/// What a comparison of two operands tells.
fn of_comparison(
    alloc: Global,
    memory: &AMem<'_>,
    rel: Rel,
    first: &Term,
    second: &Term,
) -> Result<Told, AllocError>
    requires kept { IsMemory memory.now }
    requires first { IsTyped (term_of first.now) }
    requires second { IsTyped (term_of second.now) }
    ensures { IfOk result
        (IsComparing (rows_of memory.now.checked) (memory_in memory.now) rel (term_of first.now) (term_of second.now)) }
{
    let left = side_of(alloc, memory, first)?;
    let right = side_of(alloc, memory, second)?;
    Ok(Told::of(Refinement::Between(rel, left, right)))
}

/// What an operator tells that extends no word.
fn of_operator(
    alloc: Global,
    memory: &AMem<'_>,
    op: Op,
    sizes: &[u32],
    operands: &[Term],
) -> Result<Told, AllocError>
    requires kept { IsMemory memory.now }
    requires typed { IsTyped (Apply op sizes.now (expressions_of (map term_of operands.now))) }
    requires extends { is_extension_of op ≡ false }
    ensures { IfOk result
        (IsRefinement (rows_of memory.now.checked) (memory_in memory.now)
        (Apply op sizes.now (expressions_of (map term_of operands.now)))) }
{
    let Some(rel) = relation_of(op) else {
        return Ok(Told::of(Refinement::Nothing));
    };
    match operands {
        [] => Ok(Told::of(Refinement::Nothing)),
        [_] => Ok(Told::of(Refinement::Nothing)),
        [first, second] => of_comparison(alloc, memory, rel, first, second),
        [_, _, _, ..] => Ok(Told::of(Refinement::Nothing)),
    }
}

/// What the expression of a switch tells that gives this value.
pub(crate) fn told_by(
    alloc: Global,
    memory: &AMem<'_>,
    term: &Term,
    given: &AVal,
) -> Result<Told, AllocError>
    requires kept { IsMemory memory.now }
    requires typed { IsTyped (term_of term.now) }
    requires given { (value_at (rows_of memory.now.checked) (memory_in memory.now) (term_of term.now)).left
        ≡ Some given.now }
    ensures { IfOk result (IsRefinement (rows_of memory.now.checked) (memory_in memory.now) (term_of term.now)) }
{
    match term {
        Term::Num(_) => Ok(Told::of(Refinement::Nothing)),
        Term::Addr(_, _) => Ok(Told::of(Refinement::Nothing)),
        Term::Load(size, at) => of_load(alloc, memory, *size, at, given),
        Term::Apply(op, sizes, operands) => {
            if is_extension(*op) {
                of_extension(alloc, memory, *op, sizes, operands)
            } else {
                of_operator(alloc, memory, *op, sizes, operands)
            }
        }
    }
}
