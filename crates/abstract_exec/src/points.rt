//! Merge points.

ghost use Rattle.std.specs.Prelude.{◌<◌, ◌↔◌, length, false, IsTrue, IfOk};
ghost use Rattle.domain_core.specs.Outlines.{shape_of};
ghost use Rattle.abstract_exec.specs.Points.{AreMergePoints, IsLeft};

use domain_core::Outline;
use std::alloc::{AllocError, Global};
use worklist_rules::Policy;

/// Whether an edge leads to a node, and out of some scope.
fn leads_out(outline: &Outline, from: u32, to: u32) -> bool
    requires { from < length outline.now.nodes }
    ensures { IsTrue result ↔ (to < length outline.now.nodes) × IsLeft (shape_of outline.now) from to }
{
    outline.kept();
    if to >= outline.node_count() {
        return false;
    }
    !outline.holds(outline.node(from).scope, to)
}

/// The nodes that some edge reaches from inside a scope that does not hold them.
fn exits(alloc: Global, outline: &Outline) -> Result<Vec<bool>, AllocError>
    ensures { IfOk result (λ points. AreMergePoints (shape_of outline.now) Policy.Exits points.items) }
{
    outline.kept();
    let mut points = vec![in alloc; false; outline.node_count() as usize]?;
    let flags = points.as_mut_slice();
    for e in 0..outline.edge_count() {
        let (from, to) = outline.edge(e);
        if leads_out(outline, from, to) {
            flags[to as usize] = true;
        }
    }
    Ok(points)
}

/// For each node whether it is a merge point of the policy.
pub fn merge_points(
    alloc: Global,
    outline: &Outline,
    policy: Policy,
) -> Result<Vec<bool>, AllocError>
    ensures { IfOk result (λ points. AreMergePoints (shape_of outline.now) policy points.items) }
{
    match policy {
        Policy::None => vec![in alloc; false; outline.node_count() as usize],
        Policy::Exits => exits(alloc, outline),
        Policy::Joins => vec![in alloc; true; outline.node_count() as usize],
    }
}
