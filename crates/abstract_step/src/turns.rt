//! Where steps lead.

ghost use Rattle.std.specs.Prelude.{◌≡◌, [], ◌∷◌, None, Some, IfOk};
ghost use Rattle.alf_check.specs.CheckedPrograms.{seen};
ghost use Rattle.flow_graph.specs.Nodes.{Node, Leads};
ghost use Rattle.domain_core.specs.FaultSets.{either, no_faults};
ghost use Rattle.memory_model.specs.KeptMemories.{memory_in};
ghost use Rattle.transfer_rules.specs.Stepping.{to_goal};
ghost use Rattle.transfer_rules.specs.PartMachines.{IsOwn};
ghost use Rattle.abstract_step.specs.Standing.{place_of};
ghost use Rattle.abstract_step.specs.Turns.{IsTurn};

use crate::here::Here;
use abstract_memory::AMem;
use domain_core::{FaultSet, Stepped};
use std::alloc::{AllocError, Global};

/// No run goes on.
pub(crate) fn nowhere<'a>(alloc: Global, here: &Here<'_>, faults: FaultSet) -> Stepped<AMem<'a>>
    ensures { IsTurn here.now result.next.items result.faults (record { left = None; faults = faults }) }
{
    Stepped {
        next: Vec::new(alloc),
        faults,
    }
}

/// The one next point.
fn to_point<'a>(
    alloc: Global,
    number: u32,
    memory: AMem<'a>,
) -> Result<Stepped<AMem<'a>>, AllocError>
    ensures next { IfOk result (λ stepped. stepped.next.items ≡ (number, memory.entry) ∷ []) }
    ensures faults { IfOk result (λ stepped. stepped.faults ≡ no_faults) }
{
    let mut next = Vec::new(alloc);
    next.push((number, memory))?;
    Ok(Stepped {
        next,
        faults: FaultSet::none(),
    })
}

/// On to the node with this block, or to the entry, to which the node leads.
pub(crate) fn to_node<'a>(
    alloc: Global,
    here: &Here<'_>,
    block: Option<u32>,
    memory: AMem<'a>,
) -> Result<Stepped<AMem<'a>>, AllocError>
    requires own { IsOwn here.now.checked memory }
    ensures { (goal : Node) → Leads (seen here.now.checked) (place_of here.now) (Some goal) → goal.block ≡ block
        → IfOk result
        (λ stepped. IsTurn here.now stepped.next.items stepped.faults (to_goal (Some goal) (memory_in memory.entry))) }
{
    to_point(alloc, here.next(block), memory)
}

/// To the end of the program.
pub(crate) fn to_end<'a>(
    alloc: Global,
    here: &Here<'_>,
    memory: AMem<'a>,
) -> Result<Stepped<AMem<'a>>, AllocError>
    requires own { IsOwn here.now.checked memory }
    ensures { IfOk result
        (λ stepped. IsTurn here.now stepped.next.items stepped.faults (to_goal None (memory_in memory.entry))) }
{
    to_point(alloc, here.end(), memory)
}

/// The step after faults that were told before it.
pub(crate) fn after<'a>(faults: FaultSet, stepped: Stepped<AMem<'a>>) -> Stepped<AMem<'a>>
    ensures next { result.next.items ≡ stepped.entry.next.items }
    ensures faults { result.faults ≡ either faults stepped.entry.faults }
{
    Stepped {
        next: stepped.next,
        faults: faults.union(stepped.faults),
    }
}
