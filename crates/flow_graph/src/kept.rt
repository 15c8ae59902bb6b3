//! The nodes that are kept.

ghost use Rattle.std.specs.Prelude.{◌≡◌, ◌≤◌, [], ◌∷◌, ◌++◌, length, AllPairs, IfOk, IfErr, OnOk, Some};
ghost use Rattle.std.specs.List.{insert};
ghost use Rattle.alf_check.specs.CheckedPrograms.{seen};
ghost use Rattle.flow_graph.specs.Nodes.{Node, Leads, IsKeptNode};
ghost use Rattle.flow_graph.specs.Numbering.{IsBefore, IsNumbering, HasMoreNodes, most_nodes};
ghost use Rattle.flow_graph.specs.Places.{node_at, node_of, nodes_of};
ghost use Rattle.flow_graph.specs.Goals.{IsGoalIn};
ghost use Rattle.flow_graph.specs.Faults.{FaultTells};
ghost use Rattle.flow_graph.specs.Growing.{IsGrown, Overflows};

use crate::fault::GraphFault;
use crate::goals::{Goals, leads_from};
use crate::place::{Place, position};
use alf_check::Checked;
use flow_base::Which;
use std::alloc::{AllocError, Global};

/// The most nodes that a graph may have.
const MOST_NODES: usize = 512;

/// The nodes that are kept, in their order.
///
/// The search goes on from one node after another, and stops at the first node past the limit. A
/// node is looked up in time logarithmic in their count.
pub fn kept_places(alloc: Global, checked: &Checked) -> Result<Vec<Place>, GraphFault>
    ensures numbered { IfOk result (λ places. IsNumbering (seen checked.now) (nodes_of places.items)) }
    ensures few { IfOk result (λ places. length places.items ≤ most_nodes) }
    ensures fault { IfErr result (λ fault. FaultTells fault (HasMoreNodes (seen checked.now) most_nodes) ⊥) }
{
    let mut places = Vec::new(alloc);
    let mut pending = Vec::new(alloc);
    add(alloc, &mut places, &mut pending, &[], None)?;
    while let Some(place) = pending.pop() {
        go_on(alloc, checked, &mut places, &mut pending, &place)?;
    }
    Ok(places)
}

// Adds the nodes to which one leads.
fn go_on(
    alloc: Global,
    checked: &Checked,
    places: &mut Vec<Place>,
    pending: &mut Vec<Place>,
    place: &Place,
) -> Result<(), GraphFault>
    requires kept { IsKeptNode (seen checked.now) (node_of place.now) }
    requires ascends { AllPairs IsBefore (nodes_of places.old.items) }
    requires few { length places.old.items ≤ most_nodes }
    ensures grown { OnOk result (IsGrown (nodes_of places.old.items) (nodes_of pending.old.items)
        (λ (n : Node). Leads (seen checked.now) (node_of place.now) (Some n)) (nodes_of places.new.items)
        (nodes_of pending.new.items)) }
    ensures fault { IfErr result
        (λ fault. FaultTells fault
        (Overflows (nodes_of places.old.items) (λ (n : Node). Leads (seen checked.now) (node_of place.now) (Some n)))
        ⊥) }
{
    match leads_from(alloc, checked, place)? {
        None => Ok(()),
        Some(goals) => Ok(add_all(alloc, places, pending, &goals)?),
    }
}

// Adds the nodes that are not yet there.
fn add_all(
    alloc: Global,
    places: &mut Vec<Place>,
    pending: &mut Vec<Place>,
    goals: &Goals,
) -> Result<(), GraphFault>
    requires ascends { AllPairs IsBefore (nodes_of places.old.items) }
    requires few { length places.old.items ≤ most_nodes }
    ensures grown { OnOk result (IsGrown (nodes_of places.old.items) (nodes_of pending.old.items)
        (λ (n : Node). IsGoalIn (Some goals.now) (Some n)) (nodes_of places.new.items) (nodes_of pending.new.items)) }
    ensures fault { IfErr result
        (λ fault. FaultTells fault
        (Overflows (nodes_of places.old.items) (λ (n : Node). IsGoalIn (Some goals.now) (Some n))) ⊥) }
{
    for block in goals.blocks.iter() {
        add(alloc, places, pending, &goals.path, *block)?;
    }
    Ok(())
}

// Adds a node, if it is not yet there.
fn add(
    alloc: Global,
    places: &mut Vec<Place>,
    pending: &mut Vec<Place>,
    path: &[u32],
    block: Option<u32>,
) -> Result<(), GraphFault>
    requires ascends { AllPairs IsBefore (nodes_of places.old.items) }
    requires few { length places.old.items ≤ most_nodes }
    ensures grown { OnOk result (IsGrown (nodes_of places.old.items) (nodes_of pending.old.items)
        (λ (n : Node). n ≡ node_at path.now block) (nodes_of places.new.items) (nodes_of pending.new.items)) }
    ensures fault { IfErr result
        (λ fault. FaultTells fault (Overflows (nodes_of places.old.items) (λ (n : Node). n ≡ node_at path.now block))
        ⊥) }
{
    match position(places, path, block) {
        Ok(_) => Ok(()),
        Err(_) if places.len() == MOST_NODES => Err(GraphFault::Limit(Which::Nodes, 513)),
        Err(at) => Ok(put(alloc, places, pending, path, block, at)?),
    }
}

// Puts a node into its place.
fn put(
    alloc: Global,
    places: &mut Vec<Place>,
    pending: &mut Vec<Place>,
    path: &[u32],
    block: Option<u32>,
    at: usize,
) -> Result<(), AllocError>
    requires { at ≤ length places.old.items }
    ensures places { OnOk result
        (nodes_of places.new.items ≡ insert (nodes_of places.old.items) at (node_at path.now block)) }
    ensures pending { OnOk result
        (nodes_of pending.new.items ≡ nodes_of pending.old.items ++ node_at path.now block ∷ []) }
{
    let found = path.to_vec(alloc)?;
    places.insert(at, Place { path: found, block })?;
    let waiting = path.to_vec(alloc)?;
    pending.push(Place {
        path: waiting,
        block,
    })?;
    Ok(())
}
