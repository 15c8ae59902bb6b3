//! Steps from blocks: statements, and then what the block ends with.

ghost use Rattle.std.specs.Prelude.{◌≡◌, Some, IfOk};
ghost use Rattle.alf_check.specs.CheckedPrograms.{Return, seen, end_of, term_of};
ghost use Rattle.alf_runs.specs.Steps.{frames_of};
ghost use Rattle.memory_model.specs.KeptMemories.{memory_in};
ghost use Rattle.transfer_rules.specs.Remains.{goes_on};
ghost use Rattle.transfer_rules.specs.Evaluating.{value_at};
ghost use Rattle.transfer_rules.specs.Stepping.{leave_to, end_at};
ghost use Rattle.transfer_rules.specs.Machines.{goals_from};
ghost use Rattle.transfer_rules.specs.PartMachines.{IsOwn};
ghost use Rattle.abstract_step.specs.Standing.{place_of, path_at, StandsAt};
ghost use Rattle.abstract_step.specs.Turns.{IsTurn};

use crate::calling::call;
use crate::here::Here;
use crate::returning::leave;
use crate::switching::switch;
use crate::turns::{after, nowhere, to_node};
use abstract_memory::AMem;
use alf_check::{BlockEnd, Term};
use domain_core::Stepped;
use std::alloc::{AllocError, Global};
use step_statements::{do_statements, evaluate};

/// A step: from an entry to the first block, or from a block.
pub(crate) fn step_from<'a>(
    alloc: Global,
    here: &Here<'_>,
    memory: AMem<'a>,
) -> Result<Stepped<AMem<'a>>, AllocError>
    requires own { IsOwn here.now.checked memory }
    ensures { IfOk result
        (λ stepped. IsTurn here.now stepped.next.items stepped.faults
        (goals_from (seen here.now.checked) here.now.graph here.now.node (memory_in memory.entry))) }
{
    match here.at().block {
        None => to_node(alloc, here, Some(0), memory),
        Some(block) => step_block(alloc, here, block, memory),
    }
}

/// A step from a block.
fn step_block<'a>(
    alloc: Global,
    here: &Here<'_>,
    block: u32,
    memory: AMem<'a>,
) -> Result<Stepped<AMem<'a>>, AllocError>
    requires at { (place_of here.now).block ≡ Some block }
    requires own { IsOwn here.now.checked memory }
    ensures { IfOk result
        (λ stepped. IsTurn here.now stepped.next.items stepped.faults
        (goals_from (seen here.now.checked) here.now.graph here.now.node (memory_in memory.entry))) }
{
    let row = here.checked().block(here.at().func, block);
    let mut memory = memory;
    let (goes_on, faults) = do_statements(alloc, &mut memory, &row.stmts)?;
    if !goes_on {
        return Ok(nowhere(alloc, here, faults));
    }
    let stepped = end_block(alloc, here, block, &row.end, memory)?;
    Ok(after(faults, stepped))
}

/// What a block ends with.
fn end_block<'a>(
    alloc: Global,
    here: &Here<'_>,
    block: u32,
    end: &BlockEnd,
    memory: AMem<'a>,
) -> Result<Stepped<AMem<'a>>, AllocError>
    requires stands { StandsAt here.now block (end_of end.now) }
    requires own { IsOwn here.now.checked memory }
    ensures { IfOk result
        (λ stepped. IsTurn here.now stepped.next.items stepped.faults
        (end_at (seen here.now.checked) (path_at here.now) block (end_of end.now) (memory_in memory.entry))) }
{
    match end {
        BlockEnd::Fall(next) => to_node(alloc, here, Some(*next), memory),
        BlockEnd::Jump(to) => to_node(alloc, here, Some(*to), memory),
        BlockEnd::Switch(value, targets, others) => switch(
            alloc, here, value, targets, *others, memory,
        ),
        BlockEnd::Call { func, args, .. } => call(alloc, here, *func, args, memory),
        BlockEnd::Return(None) => leave(alloc, here, None, memory),
        BlockEnd::Return(Some(value)) => give_back(alloc, here, block, value, memory),
    }
}

/// A return with a value.
fn give_back<'a>(
    alloc: Global,
    here: &Here<'_>,
    block: u32,
    term: &Term,
    memory: AMem<'a>,
) -> Result<Stepped<AMem<'a>>, AllocError>
    requires stands { StandsAt here.now block (Return (Some (term_of term.now))) }
    requires own { IsOwn here.now.checked memory }
    ensures { IfOk result (λ stepped. IsTurn here.now stepped.next.items stepped.faults
        (goes_on (value_at (frames_of (seen here.now.checked)) (memory_in memory.entry) (term_of term.now))
        (λ v. leave_to (seen here.now.checked) (path_at here.now) (Some v) (memory_in memory.entry)))) }
{
    let (value, faults) = evaluate(alloc, &memory, term)?;
    match value {
        None => Ok(nowhere(alloc, here, faults)),
        Some(value) => {
            let stepped = leave(alloc, here, Some(value), memory)?;
            Ok(after(faults, stepped))
        }
    }
}
