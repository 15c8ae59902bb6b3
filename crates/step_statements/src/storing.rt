//! What statements make of a memory.

ghost use Rattle.std.specs.Prelude.{◌≡◌, IfOk, OnOk, map};
ghost use Rattle.std.specs.List.{AllByRecursion};
ghost use Rattle.alf_program.specs.Tree.{Address};
ghost use Rattle.alf_check.specs.CheckedPrograms.{Store, act_of, term_of};
ghost use Rattle.pointer_rules.specs.Covering.{IsValue};
ghost use Rattle.memory_model.specs.KeptMemories.{memory_in, rows_of, IsMemory};
ghost use Rattle.transfer_rules.specs.Evaluating.{width_of, pointer_value};
ghost use Rattle.transfer_rules.specs.Doing.{stored_through, after_statement, after_statements};
ghost use Rattle.step_statements.specs.Typed.{IsTypedStatement, IsStorable};
ghost use Rattle.step_statements.specs.Found.{done};

use crate::evaluating::{address_of, evaluate};
use abstract_memory::AMem;
use alf_check::{Act, Term};
use domain_core::FaultSet;
use pointer_domain::AVal;
use std::alloc::{AllocError, Global};

/// The size of a value.
fn width(value: &AVal) -> u32
    ensures { result ≡ width_of value.now }
{
    match value.int() {
        None => 32,
        Some(words) => words.size(),
    }
}

/// Stores the value through the address. After want of memory the memory is given up.
fn store_through(
    alloc: Global,
    memory: &mut AMem<'_>,
    at: &AVal,
    value: &AVal,
) -> Result<(bool, FaultSet), AllocError>
    requires kept { IsMemory memory.old }
    requires address { IsValue 32 at.now }
    requires value { IsStorable value.now }
    ensures checked { OnOk result (memory.new.checked ≡ memory.old.checked) }
    ensures kept { OnOk result (IsMemory memory.new) }
    ensures stored { IfOk result
        (λ answer. done answer (memory_in memory.new)
        ≡ stored_through (rows_of memory.old.checked) (memory_in memory.old) at.now value.now) }
{
    let size = width(value);
    memory.store(alloc, at, value, size)
}

/// Stores the value at an offset of a frame, as through a pointer: whether some run goes on, which is whether the cell
/// lies in the frame and this is active, and the faults. After want of memory the memory is given up.
pub fn store_at(
    alloc: Global,
    memory: &mut AMem<'_>,
    frame: u32,
    offset: u32,
    value: &AVal,
) -> Result<(bool, FaultSet), AllocError>
    requires kept { IsMemory memory.old }
    requires value { IsStorable value.now }
    ensures checked { OnOk result (memory.new.checked ≡ memory.old.checked) }
    ensures kept { OnOk result (IsMemory memory.new) }
    ensures stored { IfOk result
        (λ answer. done answer (memory_in memory.new)
        ≡ stored_through (rows_of memory.old.checked) (memory_in memory.old) (pointer_value frame offset) value.now) }
{
    let size = width(value);
    memory.store_cell(alloc, frame, offset, value, size)
}

/// A store to a cell, as through the pointer to it.
fn store_in(
    alloc: Global,
    memory: &mut AMem<'_>,
    cell: (u32, u32),
    term: &Term,
) -> Result<(bool, FaultSet), AllocError>
    requires typed { IsTypedStatement (Store (Address cell.0 cell.1) (term_of term.now)) }
    requires kept { IsMemory memory.old }
    ensures checked { OnOk result (memory.new.checked ≡ memory.old.checked) }
    ensures kept { OnOk result (IsMemory memory.new) }
    ensures stored { IfOk result (λ answer. done answer (memory_in memory.new)
        ≡ after_statement (rows_of memory.old.checked) (Store (Address cell.0 cell.1) (term_of term.now))
        (memory_in memory.old)) }
{
    let (value, faults) = evaluate(alloc, memory, term)?;
    let Some(value) = value else {
        return Ok((false, faults));
    };
    let (goes_on, more) = store_at(alloc, memory, cell.0, cell.1, &value)?;
    Ok((goes_on, faults.union(more)))
}

/// A store: the address is evaluated first, then the value.
fn store(
    alloc: Global,
    memory: &mut AMem<'_>,
    to: &Term,
    term: &Term,
) -> Result<(bool, FaultSet), AllocError>
    requires typed { IsTypedStatement (Store (term_of to.now) (term_of term.now)) }
    requires kept { IsMemory memory.old }
    ensures checked { OnOk result (memory.new.checked ≡ memory.old.checked) }
    ensures kept { OnOk result (IsMemory memory.new) }
    ensures stored { IfOk result (λ answer. done answer (memory_in memory.new)
        ≡ after_statement (rows_of memory.old.checked) (Store (term_of to.now) (term_of term.now))
        (memory_in memory.old)) }
{
    if let Some(cell) = address_of(to) {
        return store_in(alloc, memory, cell, term);
    }
    let (at, faults) = evaluate(alloc, memory, to)?;
    let Some(at) = at else {
        return Ok((false, faults));
    };
    let (value, more) = evaluate(alloc, memory, term)?;
    let Some(value) = value else {
        return Ok((false, faults.union(more)));
    };
    let (goes_on, last) = store_through(alloc, memory, &at, &value)?;
    Ok((goes_on, faults.union(more.union(last))))
}

/// A statement.
fn do_statement(
    alloc: Global,
    memory: &mut AMem<'_>,
    act: &Act,
) -> Result<(bool, FaultSet), AllocError>
    requires typed { IsTypedStatement (act_of act.now) }
    requires kept { IsMemory memory.old }
    ensures checked { OnOk result (memory.new.checked ≡ memory.old.checked) }
    ensures kept { OnOk result (IsMemory memory.new) }
    ensures done { IfOk result
        (λ answer. done answer (memory_in memory.new)
        ≡ after_statement (rows_of memory.old.checked) (act_of act.now) (memory_in memory.old)) }
{
    match act {
        Act::Null => Ok((true, FaultSet::none())),
        Act::Store(to, term) => store(alloc, memory, to, term),
    }
}

/// Statements in their order: whether some run goes on after them, with the memory as it then is, and the faults.
/// Where none goes on, or after want of memory, the memory is given up.
pub fn do_statements(
    alloc: Global,
    memory: &mut AMem<'_>,
    acts: &[Act],
) -> Result<(bool, FaultSet), AllocError>
    requires typed { AllByRecursion IsTypedStatement (map act_of acts.now) }
    requires kept { IsMemory memory.old }
    ensures checked { OnOk result (memory.new.checked ≡ memory.old.checked) }
    ensures kept { OnOk result (IsMemory memory.new) }
    ensures done { IfOk result
        (λ answer. done answer (memory_in memory.new)
        ≡ after_statements (rows_of memory.old.checked) (map act_of acts.now) (memory_in memory.old)) }
{
    let mut faults = FaultSet::none();
    let mut rest = acts;
    while let Some((act, others)) = rest.split_first() {
        let (goes_on, more) = do_statement(alloc, memory, act)?;
        faults = faults.union(more);
        if !goes_on {
            return Ok((false, faults));
        }
        rest = others;
    }
    Ok((true, faults))
}
