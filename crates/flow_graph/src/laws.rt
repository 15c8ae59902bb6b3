//! What is true of every graph, as clauses of functions that do nothing.

ghost use Rattle.std.specs.Prelude.{◌≡◌, ◌<◌, ℕ, List, [], All, length, slice_index_or};
ghost use Rattle.alf_check.specs.CheckedPrograms.{NumberedProgram};
ghost use Rattle.alf_check.specs.Kept.{IsKept};
ghost use Rattle.flow_graph.specs.Nodes.{Node};
ghost use Rattle.flow_graph.specs.Names.{IsNodeName};
ghost use Rattle.flow_graph.specs.Numbering.{GraphParts, HasMoreNodes, HasMoreEdges, IsEdges, IsGraph, IsNumbering};
ghost use Rattle.flow_graph.specs.Numbering.{most_nodes, most_edges};
ghost use Rattle.flow_graph.specs.Expansions.{IsExpansion};

/// What the graph of a program keeps: node 0 is the entry of the root, each node is reached along
/// edges, no two nodes are the same, edges stay in an instance, enter one that is called or leave it
/// to its caller, and only returns of the root lead to the end. The functions on a call path differ.
pub fn graphs_are_expansions()
    ensures { (program : NumberedProgram) (graph : GraphParts) → IsKept program → IsGraph program graph
        → IsExpansion program graph }
{}

/// A program has one graph: its nodes have one numbering, and its edges one list.
pub fn a_program_has_one_graph()
    ensures nodes { (program : NumberedProgram) (nodes others : List Node) → IsNumbering program nodes
        → IsNumbering program others → nodes ≡ others }
    ensures edges { (program : NumberedProgram) (nodes : List Node) (edges others : List (ℕ × ℕ))
        → IsEdges program nodes edges → IsEdges program nodes others → edges ≡ others }
    ensures graph { (program : NumberedProgram) (graph other : GraphParts) → IsGraph program graph
        → IsGraph program other → graph ≡ other }
{}

/// A program has a graph, or more nodes than it may have, or no more of these and more edges: no two
/// of the three hold of one program.
pub fn limits_exclude_each_other()
    ensures nodes { (program : NumberedProgram) (graph : GraphParts) → IsGraph program graph
        → HasMoreNodes program most_nodes → ⊥ }
    ensures edges { (program : NumberedProgram) (graph : GraphParts) → IsGraph program graph
        → HasMoreEdges program most_edges → ⊥ }
    ensures either { (program : NumberedProgram) → HasMoreNodes program most_nodes → HasMoreEdges program most_edges
        → ⊥ }
{}

/// Names of distinct nodes of a graph are distinct, and each is one that reports spell.
pub fn names_tell_nodes_apart()
    ensures apart { (program : NumberedProgram) (graph : GraphParts) → IsKept program → IsGraph program graph
        → (m n : ℕ) → m < length graph.nodes → n < length graph.nodes
        → slice_index_or graph.names m [] ≡ slice_index_or graph.names n [] → m ≡ n }
    ensures spelled { (program : NumberedProgram) (graph : GraphParts) → IsKept program → IsGraph program graph
        → All IsNodeName graph.names }
{}
