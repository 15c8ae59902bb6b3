//! Walks along the edges of a graph, a search for one, and the cycles of a table of calls.
//!
//! A graph is a relation on nodes: u leads to v. In code it is a table with a row for each node, the numbers of
//! the nodes to which it leads. `find_walk` gives a walk between two nodes that meets no marked node, or tells
//! that there is none, and `mark_reached` marks exactly what a node reaches by nodes without a mark. Both are one
//! depth-first search. It is a loop, so a long walk takes memory and no stack.
//!
//! A program's calls are such a table, by the numbers of functions. `call_ranks` gives each function a rank, so
//! that each call leads to a lower one, or the first cycle of calls. A rank is what a proof goes down by where it
//! follows calls; a cycle is what a reader is told. The definitions and their laws stand in `specs/`, over
//! relations, for graphs of every kind.
#![tactic(auto)]

// What a table must keep.
mod table;

// The search, by steps along a row, and what others call of it.
mod find;
mod fresh;
mod reach;
mod search;

// Cycles of calls: why calls have no order, what is found of each function, and ranks.
mod fault;
mod finding;
mod ranks;

// What ranks promise.
mod laws;

pub use fault::CallFault;
pub use find::find_walk;
pub use laws::{ranked_calls_have_no_cycle, walks_go_along_edges};
pub use ranks::call_ranks;
pub use reach::mark_reached;
pub use table::is_closed;
