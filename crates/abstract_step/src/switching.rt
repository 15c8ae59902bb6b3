//! Switches.

ghost use Rattle.std.specs.Prelude.{◌≡◌, Some, IfOk, map, All};
ghost use Rattle.alf_check.specs.CheckedPrograms.{seen, term_of};
ghost use Rattle.flow_graph.specs.Nodes.{Leads, block_node};
ghost use Rattle.alf_runs.specs.Steps.{frames_of};
ghost use Rattle.memory_model.specs.KeptMemories.{memory_in};
ghost use Rattle.transfer_rules.specs.Remains.{goes_on};
ghost use Rattle.transfer_rules.specs.Evaluating.{value_at};
ghost use Rattle.transfer_rules.specs.Stepping.{pointer_fault, switched};
ghost use Rattle.transfer_rules.specs.PartMachines.{IsOwn};
ghost use Rattle.abstract_step.specs.Standing.{place_of, path_at, IsSwitchAt};
ghost use Rattle.abstract_step.specs.Turns.{numbered_arm, IsTurn};

use crate::here::Here;
use crate::turns::nowhere;
use abstract_memory::AMem;
use alf_check::Term;
use alf_ops::RunFault;
use branch_refinement::switch_arms;
use domain_core::{FaultSet, Stepped};
use interval_congruence::Strided;
use std::alloc::{AllocError, Global};
use step_statements::evaluate;

/// No switch takes a pointer.
fn pointer_fault(places: &[(u32, Strided)]) -> FaultSet
    ensures { result ≡ pointer_fault places.now }
{
    match places {
        [] => FaultSet::none(),
        [_, ..] => FaultSet::none().with(RunFault::Kind),
    }
}

/// The number of the node with this block, to which the node leads, in place of the block.
fn number_arm(here: &Here<'_>, arm: &mut (u32, AMem<'_>))
    requires { Leads (seen here.now.checked) (place_of here.now) (Some (block_node (path_at here.now) arm.old.0)) }
    ensures { arm.new ≡ numbered_arm here.now arm.old }
{
    arm.0 = here.next(Some(arm.0));
}

/// The numbers of the nodes with these blocks, to which the node leads, in place of the blocks.
fn number(here: &Here<'_>, arms: &mut [(u32, AMem<'_>)])
    requires { All
        (λ arm. Leads (seen here.now.checked) (place_of here.now) (Some (block_node (path_at here.now) arm.0)))
        arms.old }
    ensures { arms.new ≡ map (numbered_arm here.now) arms.old }
{
    for at in 0..arms.len() {
        number_arm(here, &mut arms[at]);
    }
}

/// A switch: its words have an arm for each target and one for all other words, and a pointer is a fault.
pub(crate) fn switch<'a>(
    alloc: Global,
    here: &Here<'_>,
    term: &Term,
    targets: &[(u64, u32)],
    others: u32,
    memory: AMem<'a>,
) -> Result<Stepped<AMem<'a>>, AllocError>
    requires stands { IsSwitchAt here.now (term_of term.now) targets.now others }
    requires own { IsOwn here.now.checked memory }
    ensures { IfOk result
        (λ stepped. IsTurn here.now stepped.next.items stepped.faults
        (goes_on (value_at (frames_of (seen here.now.checked)) (memory_in memory.entry) (term_of term.now))
        (switched (frames_of (seen here.now.checked)) (memory_in memory.entry) (term_of term.now) (path_at here.now)
        targets.now others))) }
{
    let (value, faults) = evaluate(alloc, &memory, term)?;
    let Some(value) = value else {
        return Ok(nowhere(alloc, here, faults));
    };
    let faults = faults.union(pointer_fault(value.at()));
    let Some(words) = value.int() else {
        return Ok(nowhere(alloc, here, faults));
    };
    let mut next = switch_arms(alloc, memory, term, &value, words, targets, others)?;
    number(here, &mut next);
    Ok(Stepped { next, faults })
}
