//! The control flow graph of a whole program, expanded by its calls.
//!
//! A node is a call path with the entry of a function or one of its blocks, so each call of a function has nodes of
//! its own. Kept are the nodes that walks along edges reach from the root's entry, in the order of their call
//! paths; at most 512 nodes and 1,024 edges. What the graph of a program is, is defined from the blocks of the
//! checked program (of `alf_check`), with nothing of the search that finds it.
//!
//! Whoever steps from node to node knows the number of the first edge from each node, and looks for a next node
//! among the edges from there, by its block alone. Nothing is looked up by a name or by a call path.
#![tactic(auto)]

// Nodes: where they lead, which are kept, and their names.
mod goals;
mod kept;
mod names;
mod place;

// The graph, and why there is none.
mod edges;
mod fault;
mod graph;

// The edges from a node.
mod node_edges;

// What is true of every graph.
mod laws;

// Rows, worked out by hand.
mod worked;

pub use fault::GraphFault;
pub use graph::{Graph, NodeRef};
pub use laws::{
    a_program_has_one_graph, graphs_are_expansions, limits_exclude_each_other,
    names_tell_nodes_apart,
};
pub use node_edges::{first_edges, next_func, next_node};
pub use worked::{edges_follow_the_endings_of_blocks, nodes_are_named_by_their_calls};
