//! The edges between the nodes that are kept.

ghost use Rattle.std.specs.Prelude.{◌≡◌, ◌<◌, ◌≤◌, ◌+◌, length, Contains, AllPairs, IfOk, OnOk, Some, slice_get};
ghost use Rattle.alf_check.specs.CheckedPrograms.{seen};
ghost use Rattle.flow_graph.specs.Numbering.{IsBefore, IsNumbering, IsEdges, most_nodes};
ghost use Rattle.flow_graph.specs.Places.{node_at, nodes_of};
ghost use Rattle.flow_graph.specs.Listing.{IsListed, IsDoneBefore};

use crate::goals::leads_from;
use crate::place::{Place, position};
use alf_check::Checked;
use std::alloc::{AllocError, Global};

/// The edges between these nodes and to the end, in their order.
pub fn edges_between(
    alloc: Global,
    checked: &Checked,
    places: &[Place],
) -> Result<Vec<(u32, u32)>, AllocError>
    requires numbered { IsNumbering (seen checked.now) (nodes_of places.now) }
    requires few { length places.now ≤ most_nodes }
    ensures { IfOk result (λ edges. IsEdges (seen checked.now) (nodes_of places.now) edges.items) }
{
    let mut edges = Vec::new(alloc);
    for from in 0..places.len() {
        add_edges(alloc, checked, places, from, &mut edges)?;
    }
    Ok(edges)
}

// Adds the edges that lead from a node.
fn add_edges(
    alloc: Global,
    checked: &Checked,
    places: &[Place],
    from: usize,
    edges: &mut Vec<(u32, u32)>,
) -> Result<(), AllocError>
    requires numbered { IsNumbering (seen checked.now) (nodes_of places.now) }
    requires few { length places.now ≤ most_nodes }
    requires there { from < length places.now }
    requires listed { IsListed (IsDoneBefore (seen checked.now) (nodes_of places.now) from) edges.old.items }
    ensures { OnOk result
        (IsListed (IsDoneBefore (seen checked.now) (nodes_of places.now) (from + 1)) edges.new.items) }
{
    let Some(goals) = leads_from(alloc, checked, &places[from])? else {
        edges.push((from as u32, places.len() as u32))?;
        return Ok(());
    };
    let path = goals.path.as_slice();
    for block in goals.blocks.iter() {
        let to = number_of(places, path, *block);
        edges.push((from as u32, to))?;
    }
    Ok(())
}

// The number of a node that is there.
fn number_of(places: &[Place], path: &[u32], block: Option<u32>) -> u32
    requires ascends { AllPairs IsBefore (nodes_of places.now) }
    requires few { length places.now ≤ most_nodes }
    requires there { Contains (nodes_of places.now) (node_at path.now block) }
    ensures { slice_get (nodes_of places.now) result ≡ Some (node_at path.now block) }
{
    match position(places, path, block) {
        Ok(at) => at as u32,
        Err(_) => unreachable!(),
    }
}
