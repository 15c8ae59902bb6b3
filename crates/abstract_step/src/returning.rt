//! Returns.

ghost use Rattle.std.specs.Prelude.{◌≡◌, ◌∷◌, ℕ, List, Some, IfOk, IfSome};
ghost use Rattle.alf_check.specs.CheckedPrograms.{seen};
ghost use Rattle.flow_graph.specs.Nodes.{Leads, block_node, ending_at, function_at};
ghost use Rattle.alf_runs.specs.Steps.{frames_of};
ghost use Rattle.memory_model.specs.KeptMemories.{memory_in};
ghost use Rattle.transfer_rules.specs.Remains.{goes_on};
ghost use Rattle.transfer_rules.specs.Evaluating.{pointer_value};
ghost use Rattle.transfer_rules.specs.Doing.{stored_through};
ghost use Rattle.transfer_rules.specs.Stepping.{to_goal, result_to, back_to, leave_to};
ghost use Rattle.step_statements.specs.Typed.{IsStorable};
ghost use Rattle.transfer_rules.specs.PartMachines.{IsOwn};
ghost use Rattle.abstract_step.specs.Standing.{place_of, path_at, IsReturnAt, GoesBackTo, IsTaken};
ghost use Rattle.abstract_step.specs.Turns.{IsTurn};

use crate::here::Here;
use crate::turns::{after, nowhere, to_end, to_node};
use abstract_memory::AMem;
use alf_check::BlockEnd;
use domain_core::{FaultSet, Stepped};
use pointer_domain::AVal;
use std::alloc::{AllocError, Global};
use step_statements::store_at;

/// A function is left: the root's return ends the run, any other goes back to its call.
pub(crate) fn leave<'a>(
    alloc: Global,
    here: &Here<'_>,
    value: Option<AVal>,
    memory: AMem<'a>,
) -> Result<Stepped<AMem<'a>>, AllocError>
    requires returns { IsReturnAt here.now }
    requires taken { IsTaken (path_at here.now) value }
    requires own { IsOwn here.now.checked memory }
    ensures { IfOk result
        (λ stepped. IsTurn here.now stepped.next.items stepped.faults
        (leave_to (seen here.now.checked) (path_at here.now) value (memory_in memory.entry))) }
{
    let at = here.at();
    let mut memory = memory;
    memory.leave(at.func);
    match at.path.split_last() {
        None => to_end(alloc, here, memory),
        Some((block, _)) => go_back(alloc, here, *block, value, memory),
    }
}

/// Back to the call that stands in a block of the caller.
fn go_back<'a>(
    alloc: Global,
    here: &Here<'_>,
    block: u32,
    value: Option<AVal>,
    memory: AMem<'a>,
) -> Result<Stepped<AMem<'a>>, AllocError>
    requires back { GoesBackTo here.now block }
    requires storable { IfSome value IsStorable }
    requires own { IsOwn here.now.checked memory }
    ensures { (path : List ℕ) → path_at here.now ≡ block ∷ path
        → IfOk result (λ stepped. IsTurn here.now stepped.next.items stepped.faults
        (back_to (frames_of (seen here.now.checked)) path
        (ending_at (seen here.now.checked) (function_at (seen here.now.checked) path) block) value
        (memory_in memory.entry))) }
{
    match &here.checked().block(here.next_func(), block).end {
        BlockEnd::Call {
            result: to,
            next,
            ..
        } => {
            let stepped = store_result(alloc, here, *to, *next, value, memory)?;
            Ok(stepped)
        }
        _ => unreachable!(),
    }
}

/// The result is stored where the call wants it, and the block after the call is next.
fn store_result<'a>(
    alloc: Global,
    here: &Here<'_>,
    to: Option<(u32, u32)>,
    next: u32,
    value: Option<AVal>,
    memory: AMem<'a>,
) -> Result<Stepped<AMem<'a>>, AllocError>
    requires storable { IfSome value IsStorable }
    requires own { IsOwn here.now.checked memory }
    ensures { (path : List ℕ) → Leads (seen here.now.checked) (place_of here.now) (Some (block_node path next))
        → IfOk result
        (λ stepped. IsTurn here.now stepped.next.items stepped.faults
        (result_to (frames_of (seen here.now.checked)) path next to value (memory_in memory.entry))) }
{
    match (to, value) {
        (Some(cell), Some(value)) => store_word(alloc, here, cell, next, &value, memory),
        (None, None) => to_node(alloc, here, Some(next), memory),
        (None, Some(_)) => Ok(nowhere(alloc, here, FaultSet::none())),
        (Some(_), None) => Ok(nowhere(alloc, here, FaultSet::none())),
    }
}

/// The value is stored in the cell, and the block is next.
fn store_word<'a>(
    alloc: Global,
    here: &Here<'_>,
    cell: (u32, u32),
    next: u32,
    value: &AVal,
    memory: AMem<'a>,
) -> Result<Stepped<AMem<'a>>, AllocError>
    requires storable { IsStorable value.now }
    requires own { IsOwn here.now.checked memory }
    ensures { (path : List ℕ) → Leads (seen here.now.checked) (place_of here.now) (Some (block_node path next))
        → IfOk result (λ stepped. IsTurn here.now stepped.next.items stepped.faults
        (goes_on
        (stored_through (frames_of (seen here.now.checked)) (memory_in memory.entry) (pointer_value cell.0 cell.1)
        value.now) (to_goal (Some (block_node path next))))) }
{
    let mut memory = memory;
    let (goes_on, faults) = store_at(alloc, &mut memory, cell.0, cell.1, value)?;
    if !goes_on {
        return Ok(nowhere(alloc, here, faults));
    }
    let stepped = to_node(alloc, here, Some(next), memory)?;
    Ok(after(faults, stepped))
}
