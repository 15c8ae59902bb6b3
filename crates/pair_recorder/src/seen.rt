//! A node as a path keeps it.

ghost use Rattle.std.specs.Prelude.{◌≡◌, ◌<◌, ◌==◌, ◌↔◌, IsTrue, length};
ghost use Rattle.std.specs.List.{list_any};
ghost use Rattle.domain_core.specs.Outlines.{shape_of};
ghost use Rattle.recorder_rules.specs.LoopRules.{own_of};
ghost use Rattle.pair_recorder.specs.Paths.{IsSmall};

use crate::tables::own_scope;
use domain_core::Outline;

/// A node that was entered, and the scope that was its own then.
#[derive(Clone, Copy, Drop)]
pub(crate) struct Seen {
    pub node: u16,
    pub scope: u16,
}

/// Whether numbers of nodes and scopes have 16 bits.
pub fn is_small(outline: &Outline) -> bool
    ensures { IsTrue result ↔ IsSmall outline.now }
{
    outline.node_count() <= 65536 && outline.scope_count() <= 65536
}

/// The node with its own scope.
pub fn seen_at(outline: &Outline, node: u32) -> Seen
    requires node { node < length outline.now.nodes }
    requires small { IsSmall outline.now }
    ensures { result ≡ record { node = node; scope = own_of (shape_of outline.now) node } }
{
    let own = own_scope(outline, node);
    Seen {
        node: node as u16,
        scope: own as u16,
    }
}

/// Whether it is the own scope of the node.
pub fn is_own(outline: &Outline, seen: &Seen) -> bool
    requires { seen.now.node < length outline.now.nodes }
    ensures { result ≡ (own_of (shape_of outline.now) seen.now.node == seen.now.scope) }
{
    own_scope(outline, seen.node as u32) == seen.scope as u32
}

/// Whether the scope is one of those.
pub fn is_within(seen: &Seen, scopes: &[u32]) -> bool
    ensures { result ≡ list_any (λ s. seen.now.scope == s) scopes.now }
{
    for scope in scopes {
        if seen.scope as u32 == *scope {
            return true;
        }
    }
    false
}
