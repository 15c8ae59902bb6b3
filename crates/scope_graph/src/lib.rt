//! The loops and scopes of a graph, or walks that show that it has a loop with two ways in.
//!
//! `outline` walks the graph depth first from node 0. For each edge back to the path at hand it asks
//! whether a walk leads to the edge's source without its target. Where one does, the graph is refused;
//! else these edges are the back edges, and ranks and scopes are made of them.
#![tactic(auto)]

// The graph as a table.
mod table;

// The depth-first walk, and what it refuses.
mod crossing;
mod descend;
mod reduce;

// Where the nodes stand.
mod place;

// What is made of a graph that is accepted.
mod body;
mod found;
mod inner;
mod made;
mod members;
mod ranks;
mod rows;

// What every outline of a graph keeps.
mod laws;

// Rows, worked out by hand.
mod worked;

pub use laws::a_graph_has_one_outline;
pub use made::outline;
pub use reduce::OutlineFault;
pub use worked::nodes_stand_at_their_paths_and_blocks;
