//! The node where a step is made.

ghost use Rattle.std.specs.Prelude.{◌≡◌, ◌<◌, Some, length};
ghost use Rattle.alf_check.specs.CheckedPrograms.{seen};
ghost use Rattle.alf_check.specs.Kept.{IsKept};
ghost use Rattle.flow_graph.specs.Nodes.{Node, Leads, function_at};
ghost use Rattle.flow_graph.specs.Numbering.{IsGraph};
ghost use Rattle.flow_graph.specs.Paths.{IsPlaced};
ghost use Rattle.flow_graph.specs.Places.{node_at};
ghost use Rattle.transfer_rules.specs.NodeNumbers.{goal_number};
ghost use Rattle.flow_graph.specs.Edges.{AreFirstEdges};
ghost use Rattle.abstract_step.specs.Standing.{place_of, function_here};

use alf_check::Checked;
use flow_graph::{Graph, NodeRef, graphs_are_expansions, next_func, next_node};
use std::marker::Model;

/// A node of the graph of a program, and where edges lead.
#[derive(Drop)]
pub(crate) struct Here<'p> {
    checked: &'p Checked,
    graph: &'p Graph,
    firsts: &'p [u32],
    node: u32,
}

impl<'p> Model for Here<'p> {
    ghost use Rattle.std.specs.Coded.{codes};
    ghost use Rattle.alf_check.specs.contracts.rows.Term as e;
    ghost use Rattle.abstract_step.specs.Standing.{HereParts, IsHere};

    ghost Value = { HereParts };

    ghost coded = { Prim.hlevel (codes, e.the_row.coded) };

    ghost view = { λ here. record {
      checked = here.checked.now;
      graph = here.graph.now;
      node = here.node;
    } };

    ghost invariant = { λ here. IsHere (record {
      checked = here.checked.now;
      graph = here.graph.now;
      node = here.node;
    }) here.firsts.now };
}

impl<'p> Here<'p> {
    /// The node of this number.
    pub(crate) fn new(
        checked: &'p Checked,
        graph: &'p Graph,
        firsts: &'p [u32],
        node: u32,
    ) -> Here<'p>
        requires graph { IsGraph (seen checked.now) graph.now }
        requires firsts { AreFirstEdges graph.now firsts.now }
        requires there { node < length graph.now.nodes }
        ensures { result ≡ record { checked = checked.now; graph = graph.now; node = node } }
    {
        checked.keeps();
        Here {
            checked,
            graph,
            firsts,
            node,
        }
    }

    /// The program.
    pub(crate) fn checked(&self) -> &'p Checked
        ensures value { result.now ≡ self.now.checked }
        ensures keeps { IsKept (seen self.now.checked) }
    {
        self.checked
    }

    /// The call path, the block and the function.
    pub(crate) fn at(&self) -> NodeRef<'p>
        ensures node { place_of self.now ≡ node_at result.path.now result.block }
        ensures func { result.func ≡ function_here self.now }
        ensures placed { IsPlaced (seen self.now.checked) (place_of self.now) }
    {
        graphs_are_expansions();
        self.graph.node(self.node)
    }

    /// The number of the node with this block, or of the entry, to which the node leads.
    pub(crate) fn next(&self, block: Option<u32>) -> u32
        ensures { (goal : Node) → Leads (seen self.now.checked) (place_of self.now) (Some goal) → goal.block ≡ block
            → result ≡ goal_number self.now.graph (Some goal) }
    {
        graphs_are_expansions();
        next_node(self.graph, self.firsts, self.node, block)
    }

    /// The number that stands for the end of the program.
    pub(crate) fn end(&self) -> u32
        ensures { result ≡ length self.now.graph.nodes }
    {
        self.graph.node_count()
    }

    /// The function of the nodes to which the node leads.
    pub(crate) fn next_func(&self) -> u32
        ensures { (goal : Node) → Leads (seen self.now.checked) (place_of self.now) (Some goal)
            → result ≡ function_at (seen self.now.checked) goal.path }
    {
        next_func(self.graph, self.firsts, self.node)
    }
}
