//! What the transfer promises, as clauses of functions that do nothing.

ghost use Rattle.domain_core.specs.Orders.{IsOrder};
ghost use Rattle.alf_check.specs.CheckedPrograms.{NumberedProgram};
ghost use Rattle.memory_rules.specs.Memories.{Mem};
ghost use Rattle.memory_rules.specs.AbstractSets.{abstract_sets};
ghost use Rattle.transfer_rules.specs.Machines.{memory_order};
ghost use Rattle.transfer_rules.specs.TransferLaws.{AddressFaultsTold, ExpressionsTell, ExpressionsTellOnly};
ghost use Rattle.transfer_rules.specs.TransferLaws.{TransferIsMachine, TransferGoesAlong};

use alf_runs::{
    a_step_leads_along_an_edge, active_frames_follow_the_call_path, values_have_their_size,
};
use flow_graph::graphs_are_expansions;

/// Memories of a program are a lattice: what is above stands for each history that a memory below
/// stands for, and a join of memories with the same active frames is above both.
pub fn memories_are_a_lattice()
    ensures { (program : NumberedProgram) → IsOrder (Mem abstract_sets) (memory_order program) }
{}

/// A fault is told of an address exactly where some address that it covers has it.
pub fn the_faults_of_an_address_are_told()
    ensures { AddressFaultsTold }
{}

/// What an expression gives over a memory that covers a history has the run's value, or tells its
/// fault; over a memory that is sharp for the history it has exactly this.
pub fn expressions_are_told()
    ensures covering { ExpressionsTell }
    ensures sharp { ExpressionsTellOnly }
{}

/// The transfer is an abstract machine for the points of runs from inputs inside the ranges: its
/// start covers each start, of each point that is covered the next point, the end or the fault is
/// told, and from a sharp memory exactly this. Each step, abstract or concrete, lies along an edge
/// of the graph's outline, the end included.
pub fn the_transfer_is_a_machine()
    ensures machine { TransferIsMachine }
    ensures along { TransferGoesAlong }
{
    a_step_leads_along_an_edge();
    active_frames_follow_the_call_path();
    values_have_their_size();
    graphs_are_expansions();
}
