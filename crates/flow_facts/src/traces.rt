//! Facts on traces.

ghost use Rattle.std.specs.Prelude.{◌≡◌, ◌<◌, ◌↔◌, IsTrue, All, length};
ghost use Rattle.domain_core.specs.Outlines.{shape_of};
ghost use Rattle.flow_facts.specs.Facts.{IsAbout, Meets, places};

use crate::Fact;
use crate::executions::executions_fit;
use crate::iterations::are_apart;
use crate::scopes::header;
use crate::span::Span;
use domain_core::Outline;

/// Whether what the fact says is so of the trace, the list of a run's nodes in their order.
///
/// Executions and iterations are those of the trace as it stands: one that its end cuts counts.
/// Nothing is asked of the trace but that its nodes are the outline's. Takes no memory, and time
/// linear in the trace and in the depth of scopes.
pub fn holds(fact: &Fact, outline: &Outline, trace: &[u32]) -> bool
    requires about { IsAbout (shape_of outline.now) fact.now }
    requires nodes { All (λ n. n < length outline.now.nodes) trace.now }
    ensures { IsTrue result ↔ Meets (shape_of outline.now) trace.now fact.now }
{
    match *fact {
        Fact::Loop(s, low, high) => {
            let node = header(outline, s);
            executions_fit(outline, s, node, Span { low, high }, trace)
        }
        Fact::Count(s, n, low, high) => executions_fit(outline, s, n, Span { low, high }, trace),
        Fact::Dead(n) => count(n, trace) == 0,
        Fact::Total(n, low, high) => Span { low, high }.has(count(n, trace)),
        Fact::Pair(s, a, b) => are_apart(outline, s, a, b, trace),
        Fact::Alarm(_, _) => true,
    }
}

/// Whether the scope and the nodes that the fact names are those of the outline.
pub fn is_about(fact: &Fact, outline: &Outline) -> bool
    ensures { IsTrue result ↔ IsAbout (shape_of outline.now) fact.now }
{
    let nodes = outline.node_count();
    let scopes = outline.scope_count();
    match *fact {
        Fact::Loop(s, _, _) => s < scopes,
        Fact::Count(s, n, _, _) => s < scopes && n < nodes,
        Fact::Pair(s, a, b) => s < scopes && a < nodes && b < nodes,
        Fact::Dead(n) | Fact::Total(n, _, _) | Fact::Alarm(n, _) => n < nodes,
    }
}

// How often the trace has the node.
fn count(node: u32, trace: &[u32]) -> u64
    ensures { result ≡ places node trace.now }
{
    trace.iter().filter(|n| node == **n).count() as u64
}
