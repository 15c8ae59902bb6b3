//! Executions of a scope along a trace.

ghost use Rattle.std.specs.Prelude.{◌≡◌, ◌<◌, ◌-◌, ◌^◌, ◌↔◌, IsTrue, List, ℕ, All, length, reverse};
ghost use Rattle.domain_core.specs.Outlines.{shape_of};
ghost use Rattle.domain_core.specs.Executions.{IsExecution};
ghost use Rattle.flow_facts.specs.Facts.{IsBetween, places};
ghost use Rattle.flow_facts.specs.Walking.{tally_of, tally_after, tally_ends};

use crate::scopes::is_inside;
use crate::span::Span;
use domain_core::Outline;

/// What is known of a scope's executions along a trace, as far as it was followed.
#[derive(Clone, Copy)]
pub struct Tally {
    /// Whether an execution is not over.
    inside: bool,
    /// How often that one has the node.
    count: u64,
    /// Whether each that is over has the node as often as it should.
    others_fit: bool,
}

impl Tally {
    // Once the run enters a node of the scope, or another. `here` is whether it is the node that is counted.
    fn after(self, held: bool, here: bool, span: Span) -> Tally
        requires { self.count < 2 ^ 64 - 1 }
        ensures { result ≡ tally_after span.low span.high held here self }
    {
        if held {
            let count = if here { self.count + 1 } else { self.count };
            Tally {
                inside: true,
                count,
                others_fit: self.others_fit,
            }
        } else {
            Tally {
                inside: false,
                count: 0,
                others_fit: self.ends(span),
            }
        }
    }

    // Whether all executions have the node as often as they should, where the run ends here.
    fn ends(self, span: Span) -> bool
        ensures { result ≡ tally_ends span.low span.high self }
    {
        (!self.inside || span.has(self.count)) && self.others_fit
    }
}

// What is known at the end of the trace.
fn tally_along(outline: &Outline, scope: u32, node: u32, span: Span, trace: &[u32]) -> Tally
    requires { All (λ n. n < length outline.now.nodes) trace.now }
    ensures { result ≡ tally_of (shape_of outline.now) scope node span.low span.high (reverse trace.now) }
{
    let mut tally = Tally {
        inside: false,
        count: 0,
        others_fit: true,
    };
    for n in trace {
        tally = tally.after(is_inside(outline, scope, *n), node == *n, span);
    }
    tally
}

/// Whether each execution of the scope has the node as often as it should.
pub fn executions_fit(outline: &Outline, scope: u32, node: u32, span: Span, trace: &[u32]) -> bool
    requires { All (λ n. n < length outline.now.nodes) trace.now }
    ensures { IsTrue result
        ↔ ((execution : List ℕ) → IsExecution (shape_of outline.now) scope trace.now execution
        → IsBetween span.low span.high (places node execution)) }
{
    outline.kept();
    tally_along(outline, scope, node, span, trace).ends(span)
}
