//! Edges of an outline from node to node.

ghost use Rattle.std.specs.Prelude.{◌<◌, IsTrue, Contains, length};

use crate::edges::has_edge;
use domain_core::Outline;

/// Whether the outline has the edge, to one of its nodes.
pub fn has_edge_to_node(outline: &Outline, from: u32, to: u32) -> bool
    ensures edge { IsTrue result → Contains outline.now.edges (from, to) }
    ensures node { IsTrue result → to < length outline.now.nodes }
{
    if to >= outline.node_count() {
        return false;
    }
    has_edge(outline, from, to)
}
