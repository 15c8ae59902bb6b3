//! Whether a flow chart goes along an outline.

ghost use Rattle.std.specs.Prelude.{IsTrue, Contains};
ghost use Rattle.exec_toys.specs.Charts.{IsWayAlong, AreForksAlong};

use crate::{Fork, Way};
use domain_core::Outline;

/// Whether the outline has the edge, to a node or to the end.
pub fn has_edge(outline: &Outline, from: u32, to: u32) -> bool
    ensures { IsTrue result → Contains outline.now.edges (from, to) }
{
    for e in 0..outline.edge_count() {
        if outline.edge(e) == (from, to) {
            return true;
        }
    }
    false
}

/// Whether the way from a node lies along an edge, or is a fault.
fn is_way_along(outline: &Outline, from: u32, way: Way) -> bool
    ensures { IsTrue result → IsWayAlong outline.now.edges from way }
{
    match way {
        Way::Goes(to, _) => has_edge(outline, from, to),
        Way::Fails(_) => true,
    }
}

/// Whether both ways of each fork lie along edges.
pub fn are_forks_along(outline: &Outline, forks: &[Fork]) -> bool
    ensures { IsTrue result → AreForksAlong outline.now.edges forks.now }
{
    for (n, fork) in forks.iter().enumerate() {
        if n > u32::MAX as usize {
            return false;
        }
        if !is_way_along(outline, n as u32, fork.below)
            || !is_way_along(outline, n as u32, fork.above)
        {
            return false;
        }
    }
    true
}
