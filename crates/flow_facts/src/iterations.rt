//! Iterations of a scope along a trace.

ghost use Rattle.std.specs.Prelude.{◌≡◌, ◌<◌, ◌↔◌, IsTrue, List, ℕ, All, Contains, length, reverse};
ghost use Rattle.domain_core.specs.Outlines.{shape_of};
ghost use Rattle.domain_core.specs.Executions.{IsIteration};
ghost use Rattle.flow_facts.specs.Walking.{seen_of, seen_after, seen_ends};

use crate::scopes::{header, is_inside};
use domain_core::Outline;

/// What is known of a scope's iterations along a trace, as far as it was followed.
#[derive(Clone, Copy)]
pub struct Seen {
    /// Whether an iteration is not over.
    inside: bool,
    /// Whether that one has the first node.
    first: bool,
    /// Whether it has the second.
    second: bool,
    /// Whether none that is over has both.
    others_apart: bool,
}

impl Seen {
    // Once the run enters a node: whether the scope holds it, whether it is the scope's header, and whether it is the
    // first node or the second.
    fn after(self, held: bool, at_header: bool, first: bool, second: bool) -> Seen
        ensures { result ≡ seen_after held at_header first second self }
    {
        if !held {
            Seen {
                inside: false,
                first: false,
                second: false,
                others_apart: self.ends(),
            }
        } else if at_header {
            Seen {
                inside: true,
                first,
                second,
                others_apart: self.ends(),
            }
        } else {
            Seen {
                inside: self.inside,
                first: (self.inside && first) || self.first,
                second: (self.inside && second) || self.second,
                others_apart: self.others_apart,
            }
        }
    }

    // Whether no iteration has both nodes, where the run ends here.
    fn ends(self) -> bool
        ensures { result ≡ seen_ends self }
    {
        !(self.first && self.second) && self.others_apart
    }
}

// What is known at the end of the trace.
fn seen_along(outline: &Outline, scope: u32, a: u32, b: u32, trace: &[u32]) -> Seen
    requires scope { scope < length outline.now.scopes }
    requires nodes { All (λ n. n < length outline.now.nodes) trace.now }
    ensures { result ≡ seen_of (shape_of outline.now) scope a b (reverse trace.now) }
{
    let header = header(outline, scope);
    let mut seen = Seen {
        inside: false,
        first: false,
        second: false,
        others_apart: true,
    };
    for n in trace {
        seen = seen.after(
            is_inside(outline, scope, *n),
            header == *n,
            a == *n,
            b == *n,
        );
    }
    seen
}

/// Whether no iteration of the scope has both nodes.
pub fn are_apart(outline: &Outline, scope: u32, a: u32, b: u32, trace: &[u32]) -> bool
    requires scope { scope < length outline.now.scopes }
    requires nodes { All (λ n. n < length outline.now.nodes) trace.now }
    ensures { IsTrue result
        ↔ ((iteration : List ℕ) → IsIteration (shape_of outline.now) scope trace.now iteration → Contains iteration a
        → Contains iteration b → ⊥) }
{
    outline.kept();
    seen_along(outline, scope, a, b, trace).ends()
}
