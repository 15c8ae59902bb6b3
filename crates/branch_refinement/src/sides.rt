//! Sides of comparisons: the words of an expression and the place that it is.

ghost use Rattle.std.specs.Prelude.{◌≡◌, ◌∷◌, [], true, false, IfOk, IfSome, IsSome, None, Some, map};
ghost use Rattle.std.specs.List.{AllZip};
ghost use Rattle.std.specs.Option.{option_map};
ghost use Rattle.alf_ops.specs.Table.{result_size, operand_sizes};
ghost use Rattle.alf_program.specs.Tree.{Address, Load, Apply, expressions_of};
ghost use Rattle.alf_check.specs.CheckedPrograms.{term_of};
ghost use Rattle.memory_rules.specs.Covers.{IsCellSize};
ghost use Rattle.strided_rules.specs.Strides.{one_word};
ghost use Rattle.pointer_rules.specs.AbstractValues.{HasSize};
ghost use Rattle.pointer_rules.specs.Covering.{IsValue};
ghost use Rattle.memory_model.specs.KeptMemories.{memory_in, rows_of, IsMemory};
ghost use Rattle.transfer_rules.specs.Evaluating.{pointer_value, value_at};
ghost use Rattle.transfer_rules.specs.Refining.{is_extension as is_extension_of, cell_of, cell_where as cell_where_of};
ghost use Rattle.transfer_rules.specs.Refining.{loaded_cell, place_in, place_of, words_alone as words_alone_of};
ghost use Rattle.step_statements.specs.Typed.{IsTyped};
ghost use Rattle.branch_refinement.specs.Places.{seen_place};
ghost use Rattle.branch_refinement.specs.Sides.{loaded_value, at_one, IsSide};

use crate::places::{cell_at, one_cell, place_at};
use crate::refinements::{Place, Side};
use crate::relations::is_extension;
use abstract_memory::AMem;
use alf_check::Term;
use alf_ops::Op;
use interval_congruence::Strided;
use pointer_domain::AVal;
use std::alloc::{AllocError, Global};
use step_statements::evaluate;

/// The words of a value without a pointer.
pub(crate) fn words_alone(value: &AVal) -> Option<Strided>
    ensures { result ≡ words_alone_of (Some value.now) }
{
    match value.at() {
        [] => value.int(),
        [_, ..] => None,
    }
}

/// The same, where there is a value.
fn words_of(value: &Option<AVal>) -> Option<Strided>
    ensures { result ≡ words_alone_of value.now }
{
    match value {
        None => None,
        Some(value) => words_alone(value),
    }
}

/// The one cell of the address, where these are words.
pub(crate) fn cell_where(
    memory: &AMem<'_>,
    words: Option<Strided>,
    at: &AVal,
    size: u32,
) -> Option<(u32, u32)>
    requires { IsCellSize size }
    ensures { result
        ≡ cell_where_of words
        (cell_of (rows_of memory.now.checked) (memory_in memory.now).runs size at.now.words at.now.places) }
{
    match words {
        None => None,
        Some(_) => one_cell(memory, at, size),
    }
}

/// What a load gives through the address, and its cell.
fn load_from(
    alloc: Global,
    memory: &AMem<'_>,
    at: &Option<AVal>,
    size: u32,
) -> Result<(Option<AVal>, Option<(u32, u32)>), AllocError>
    requires kept { IsMemory memory.now }
    requires address { IfSome at.now (IsValue 32) }
    requires size { IsCellSize size }
    ensures value { IfOk result
        (λ answer. answer.0 ≡ loaded_value (rows_of memory.now.checked) (memory_in memory.now) size at.now) }
    ensures cell { IfOk result
        (λ answer. answer.1 ≡ loaded_cell (rows_of memory.now.checked) (memory_in memory.now) size at.now) }
{
    match at {
        None => Ok((None, None)),
        Some(at) => {
            let (value, _) = memory.load(alloc, at, size)?;
            let cell = cell_where(memory, words_of(&value), at, size);
            Ok((value, cell))
        }
    }
}

/// The cell that the expression is the address of, where it is an address as it stands.
fn address_of(term: &Term) -> Option<(u32, u32)>
    ensures { IfSome result (λ cell. term_of term.now ≡ Address cell.0 cell.1) }
{
    match term {
        Term::Num(_) => None,
        Term::Addr(frame, offset) => Some((*frame, *offset)),
        Term::Load(_, _) => None,
        Term::Apply(_, _, _) => None,
    }
}

/// The cell of the pointer, where these are words.
fn cell_for(
    memory: &AMem<'_>,
    words: Option<Strided>,
    frame: u32,
    offset: u32,
    size: u32,
) -> Option<(u32, u32)>
    requires { IsCellSize size }
    ensures { result
        ≡ cell_where_of words
        (cell_of (rows_of memory.now.checked) (memory_in memory.now).runs size None
        ((frame, one_word 32 offset) ∷ [])) }
{
    match words {
        None => None,
        Some(_) => cell_at(memory, frame, Strided::one_word(32, offset as u64), size),
    }
}

/// What a load of a cell gives, and the cell, as through the pointer to it, which need not be made.
fn load_cell(
    alloc: Global,
    memory: &AMem<'_>,
    frame: u32,
    offset: u32,
    size: u32,
) -> Result<(Option<AVal>, Option<(u32, u32)>), AllocError>
    requires kept { IsMemory memory.now }
    requires size { IsCellSize size }
    ensures value { IfOk result
        (λ answer. answer.0
        ≡ loaded_value (rows_of memory.now.checked) (memory_in memory.now) size (Some (pointer_value frame offset))) }
    ensures cell { IfOk result
        (λ answer. answer.1
        ≡ loaded_cell (rows_of memory.now.checked) (memory_in memory.now) size (Some (pointer_value frame offset))) }
{
    let (value, _) = memory.load_cell(alloc, frame, offset, size)?;
    let cell = cell_for(memory, words_of(&value), frame, offset, size);
    Ok((value, cell))
}

/// What a load gives, and its cell.
fn load(
    alloc: Global,
    memory: &AMem<'_>,
    size: u32,
    at: &Term,
) -> Result<(Option<AVal>, Option<(u32, u32)>), AllocError>
    requires kept { IsMemory memory.now }
    requires typed { IsTyped (Load size (term_of at.now)) }
    ensures value { IfOk result
        (λ answer. answer.0
        ≡ (value_at (rows_of memory.now.checked) (memory_in memory.now) (Load size (term_of at.now))).left) }
    ensures cell { IfOk result
        (λ answer. answer.1
        ≡ loaded_cell (rows_of memory.now.checked) (memory_in memory.now) size
        (value_at (rows_of memory.now.checked) (memory_in memory.now) (term_of at.now)).left) }
{
    if let Some((frame, offset)) = address_of(at) {
        return load_cell(alloc, memory, frame, offset, size);
    }
    let (at, _) = evaluate(alloc, memory, at)?;
    load_from(alloc, memory, &at, size)
}

/// The value of a load, and its place.
fn read_load(
    alloc: Global,
    memory: &AMem<'_>,
    size: u32,
    at: &Term,
    extended: bool,
) -> Result<(Option<AVal>, Option<Place>), AllocError>
    requires kept { IsMemory memory.now }
    requires typed { IsTyped (Load size (term_of at.now)) }
    ensures value { IfOk result
        (λ answer. answer.0
        ≡ (value_at (rows_of memory.now.checked) (memory_in memory.now) (Load size (term_of at.now))).left) }
    ensures place { IfOk result
        (λ answer. option_map seen_place answer.1
        ≡ place_in (rows_of memory.now.checked) (memory_in memory.now) extended (Load size (term_of at.now))) }
{
    let (value, cell) = load(alloc, memory, size, at)?;
    Ok((value, place_at(cell, size, extended)))
}

/// The value of an expression that is no load.
fn read_other(
    alloc: Global,
    memory: &AMem<'_>,
    term: &Term,
) -> Result<(Option<AVal>, Option<Place>), AllocError>
    requires kept { IsMemory memory.now }
    requires typed { IsTyped (term_of term.now) }
    ensures value { IfOk result
        (λ answer. answer.0 ≡ (value_at (rows_of memory.now.checked) (memory_in memory.now) (term_of term.now)).left) }
    ensures place { IfOk result (λ answer. answer.1 ≡ None) }
{
    let (value, _) = evaluate(alloc, memory, term)?;
    Ok((value, None))
}

/// The value of an expression, and its place, if it is a load.
fn read(
    alloc: Global,
    memory: &AMem<'_>,
    term: &Term,
    extended: bool,
) -> Result<(Option<AVal>, Option<Place>), AllocError>
    requires kept { IsMemory memory.now }
    requires typed { IsTyped (term_of term.now) }
    ensures value { IfOk result
        (λ answer. answer.0 ≡ (value_at (rows_of memory.now.checked) (memory_in memory.now) (term_of term.now)).left) }
    ensures place { IfOk result
        (λ answer. option_map seen_place answer.1
        ≡ place_in (rows_of memory.now.checked) (memory_in memory.now) extended (term_of term.now)) }
{
    match term {
        Term::Num(_) => read_other(alloc, memory, term),
        Term::Addr(_, _) => read_other(alloc, memory, term),
        Term::Load(size, at) => read_load(alloc, memory, *size, at, extended),
        Term::Apply(_, _, _) => read_other(alloc, memory, term),
    }
}

/// The words that an operator gives at its one operand.
fn applied_words(
    alloc: Global,
    op: Op,
    sizes: &[u32],
    value: Option<AVal>,
) -> Result<Option<Strided>, AllocError>
    requires typed { IsSome (result_size op sizes.now) }
    requires sized { IfSome value (λ v. AllZip (λ size x. HasSize x size) (operand_sizes op sizes.now) (v ∷ [])) }
    ensures { IfOk result (λ words. words ≡ words_alone_of (at_one op sizes.now value)) }
{
    match value {
        None => Ok(None),
        Some(value) => {
            let args = [value];
            let (value, _) = AVal::apply(alloc, op, sizes, &args)?;
            Ok(words_of(&value))
        }
    }
}

/// An extension: the place is that of its operand.
fn extension_of(
    alloc: Global,
    memory: &AMem<'_>,
    op: Op,
    sizes: &[u32],
    operand: &Term,
) -> Result<Side, AllocError>
    requires kept { IsMemory memory.now }
    requires typed { IsTyped (Apply op sizes.now (expressions_of (term_of operand.now ∷ []))) }
    requires extends { is_extension_of op ≡ true }
    ensures { IfOk result
        (IsSide (rows_of memory.now.checked) (memory_in memory.now)
        (Apply op sizes.now (expressions_of (term_of operand.now ∷ [])))) }
{
    let (value, place) = read(alloc, memory, operand, true)?;
    let words = applied_words(alloc, op, sizes, value)?;
    Ok(Side { words, place })
}

/// The same of operands as they stand.
pub(crate) fn extension(
    alloc: Global,
    memory: &AMem<'_>,
    op: Op,
    sizes: &[u32],
    operands: &[Term],
) -> Result<Side, AllocError>
    requires kept { IsMemory memory.now }
    requires typed { IsTyped (Apply op sizes.now (expressions_of (map term_of operands.now))) }
    requires extends { is_extension_of op ≡ true }
    ensures { IfOk result
        (IsSide (rows_of memory.now.checked) (memory_in memory.now)
        (Apply op sizes.now (expressions_of (map term_of operands.now)))) }
{
    match operands {
        [] => unreachable!(),
        [operand] => extension_of(alloc, memory, op, sizes, operand),
        [_, _, ..] => unreachable!(),
    }
}

/// An expression that is no extension.
fn unextended(alloc: Global, memory: &AMem<'_>, term: &Term) -> Result<Side, AllocError>
    requires kept { IsMemory memory.now }
    requires typed { IsTyped (term_of term.now) }
    requires place { place_in (rows_of memory.now.checked) (memory_in memory.now) false (term_of term.now)
        ≡ place_of (rows_of memory.now.checked) (memory_in memory.now) (term_of term.now) }
    ensures { IfOk result (IsSide (rows_of memory.now.checked) (memory_in memory.now) (term_of term.now)) }
{
    let (value, place) = read(alloc, memory, term, false)?;
    Ok(Side {
        words: words_of(&value),
        place,
    })
}

/// An expression: its words, where it has no pointer, and the place that it is.
pub(crate) fn side_of(alloc: Global, memory: &AMem<'_>, term: &Term) -> Result<Side, AllocError>
    requires kept { IsMemory memory.now }
    requires typed { IsTyped (term_of term.now) }
    ensures { IfOk result (IsSide (rows_of memory.now.checked) (memory_in memory.now) (term_of term.now)) }
{
    match term {
        Term::Num(_) => unextended(alloc, memory, term),
        Term::Addr(_, _) => unextended(alloc, memory, term),
        Term::Load(_, _) => unextended(alloc, memory, term),
        Term::Apply(op, sizes, operands) => {
            if is_extension(*op) {
                extension(alloc, memory, *op, sizes, operands)
            } else {
                unextended(alloc, memory, term)
            }
        }
    }
}
