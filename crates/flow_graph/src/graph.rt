//! The graph of a program.

ghost use Rattle.std.specs.Prelude.{◌≡◌, ◌<◌, map, reverse, length, All, IfOk, IfErr, Some, slice_get};
ghost use Rattle.alf_check.specs.CheckedPrograms.{seen};
ghost use Rattle.flow_graph.specs.Nodes.{function_at, IsKeptNode};
ghost use Rattle.flow_graph.specs.Names.{node_name};
ghost use Rattle.flow_graph.specs.Numbering.{GraphParts, HasMoreNodes, HasMoreEdges, IsGraph, most_nodes, most_edges};
ghost use Rattle.flow_graph.specs.Places.{node_at, node_of, nodes_of};
ghost use Rattle.flow_graph.specs.Faults.{FaultTells};
ghost use Rattle.flow_graph.specs.Graphs.{HasProgram};

use crate::edges::edges_between;
use crate::fault::GraphFault;
use crate::goals::function_at;
use crate::kept::kept_places;
use crate::names::name_of;
use crate::place::Place;
use alf_check::Checked;
use flow_base::Which;
use std::alloc::{AllocError, Global};
use std::marker::Model;

/// The most edges that a graph may have.
const MOST_EDGES: usize = 1024;

/// A node: the blocks of the calls that lead to it, from the root on, its block, or none where it
/// is an entry, and the number of its function.
#[derive(Clone, Copy)]
pub struct NodeRef<'a> {
    pub path: &'a [u32],
    pub block: Option<u32>,
    pub func: u32,
}

/// The control flow graph of a program: the nodes that are kept and the edges between them.
///
/// Nodes are numbered in the order of their call paths, compared from the root on, a path before
/// what goes on from it; of one path the entry comes first, and then the blocks by their numbers.
/// The end has the number of nodes as its number. Edges are numbered by where they come from, and
/// then by where they lead.
#[derive(Drop)]
pub struct Graph {
    places: Vec<Place>,
    funcs: Vec<u32>,
    names: Vec<Vec<u8>>,
    edges: Vec<(u32, u32)>,
}

impl Model for Graph {
    ghost Value = { GraphParts };

    ghost view = { λ graph. record {
      nodes = nodes_of graph.places.items;
      funcs = graph.funcs.items;
      names = map (λ name. name.items) graph.names.items;
      edges = graph.edges.items;
    } };

    ghost invariant = { λ graph. HasProgram (record {
      nodes = nodes_of graph.places.items;
      funcs = graph.funcs.items;
      names = map (λ name. name.items) graph.names.items;
      edges = graph.edges.items;
    }) };
}

impl Graph {
    /// The graph of a program.
    ///
    /// Nodes are counted before edges, and the search stops at the first node past the limit, since
    /// there may be exponentially many in the depth of calls.
    pub fn expand(alloc: Global, checked: &Checked) -> Result<Graph, GraphFault>
        ensures graph { IfOk result (λ graph. IsGraph (seen checked.now) graph) }
        ensures fault { IfErr result
            (λ fault. FaultTells fault (HasMoreNodes (seen checked.now) most_nodes)
            (HasMoreEdges (seen checked.now) most_edges)) }
    {
        checked.keeps();
        let places = kept_places(alloc, checked)?;
        let edges = edges_between(alloc, checked, &places)?;
        if edges.len() > MOST_EDGES {
            return Err(GraphFault::Limit(Which::Edges, 1025));
        }
        let funcs = functions_of(alloc, checked, &places)?;
        let names = names_of(alloc, checked, &places)?;
        Ok(Graph {
            places,
            funcs,
            names,
            edges,
        })
    }

    /// It is the graph of some program.
    pub fn keeps(&self)
        ensures { HasProgram self.now }
    {
        let _count = self.places.len();
    }

    /// How many nodes there are.
    pub fn node_count(&self) -> u32
        ensures { result ≡ length self.now.nodes }
    {
        self.places.len() as u32
    }

    /// How many edges there are.
    pub fn edge_count(&self) -> u32
        ensures { result ≡ length self.now.edges }
    {
        self.edges.len() as u32
    }

    /// The node of this number.
    pub fn node(&self, n: u32) -> NodeRef<'_>
        requires { n < length self.now.nodes }
        ensures node { slice_get self.now.nodes n ≡ Some (node_at result.path.now result.block) }
        ensures func { slice_get self.now.funcs n ≡ Some result.func }
    {
        let place = &self.places[n as usize];
        NodeRef {
            path: &place.path,
            block: place.block,
            func: self.funcs[n as usize],
        }
    }

    /// The edge of this number: where it comes from, and where it leads.
    pub fn edge(&self, e: u32) -> (u32, u32)
        requires { e < length self.now.edges }
        ensures { slice_get self.now.edges e ≡ Some result }
    {
        *nth(&self.edges, e)
    }

    /// The name of a node: the root's name in quotes, then for each call a dot, the block and the
    /// called function's name in quotes, then a colon and the block or the word `entry`.
    pub fn name(&self, alloc: Global, n: u32) -> Result<Vec<u8>, AllocError>
        requires { n < length self.now.nodes }
        ensures { IfOk result (λ name. slice_get self.now.names n ≡ Some name.items) }
    {
        self.names[n as usize].to_vec(alloc)
    }
}

// The member of this number.
fn nth<T>(list: &[T], number: u32) -> &T
    requires { number < length list.now }
    ensures { slice_get list.now number ≡ Some result.now }
{
    &list[number as usize]
}

// The functions of the nodes.
fn functions_of(alloc: Global, checked: &Checked, places: &[Place]) -> Result<Vec<u32>, AllocError>
    requires { All (IsKeptNode (seen checked.now)) (nodes_of places.now) }
    ensures { IfOk result
        (λ funcs. funcs.items ≡ map (λ place. function_at (seen checked.now) (reverse place.path.items)) places.now) }
{
    checked.keeps();
    let mut funcs = Vec::new(alloc);
    for place in places {
        funcs.push(function_at(checked, &place.path))?;
    }
    Ok(funcs)
}

// The names of the nodes.
fn names_of(alloc: Global, checked: &Checked, places: &[Place]) -> Result<Vec<Vec<u8>>, AllocError>
    requires { All (IsKeptNode (seen checked.now)) (nodes_of places.now) }
    ensures { IfOk result
        (λ names. map (λ name. name.items) names.items
        ≡ map (λ place. node_name (seen checked.now) (node_of place)) places.now) }
{
    checked.keeps();
    let mut names = Vec::new(alloc);
    for place in places {
        let name = name_of(alloc, checked, place)?;
        names.push(name)?;
    }
    Ok(names)
}
