//! What the definitions promise, as a function that does nothing when it is called.

ghost use Rattle.scope_graph.specs.Laws.{HasOneOutline};

use flow_graph::graphs_are_expansions;

/// Two outlines of a graph have the same scopes, and the same scope for each node. Does nothing when
/// it is called.
pub fn a_graph_has_one_outline()
    ensures { HasOneOutline }
{
    graphs_are_expansions();
}
