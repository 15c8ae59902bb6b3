//! Scopes of nodes, and lines.

ghost use Rattle.std.specs.Prelude.{◌≡◌, ◌<◌, ◌++◌, ◌∷◌, [], length, OnOk};
ghost use Rattle.domain_core.specs.Outlines.{shape_of, kind_of, header_of};
ghost use Rattle.recorder_rules.specs.LoopRules.{is_loop, own_of, is_counted};

use domain_core::{Outline, ScopeKind};
use flow_facts::Fact;
use std::alloc::AllocError;

/// One line more.
pub fn tell(facts: &mut Vec<Fact>, fact: Fact) -> Result<(), AllocError>
    ensures { OnOk result (facts.new.items ≡ facts.old.items ++ fact ∷ []) }
{
    Ok(facts.push(fact)?)
}

/// Whether the scope is a loop.
pub fn is_loop_at(outline: &Outline, scope: u32) -> bool
    requires { scope < length outline.now.scopes }
    ensures { result ≡ is_loop (kind_of outline.now.scopes scope) }
{
    match outline.scope(scope).kind {
        ScopeKind::Loop => true,
        ScopeKind::Call => false,
    }
}

/// The header of the scope.
pub fn header_at(outline: &Outline, scope: u32) -> u32
    requires { scope < length outline.now.scopes }
    ensures { result ≡ header_of outline.now.scopes scope }
{
    outline.scope(scope).header
}

/// The own scope of the node.
pub fn own_scope(outline: &Outline, node: u32) -> u32
    requires { node < length outline.now.nodes }
    ensures { result ≡ own_of (shape_of outline.now) node }
{
    outline.node(node).scope
}

/// Whether the node is counted: it is not the header of its scope, which is a loop.
pub fn is_counted_at(outline: &Outline, node: u32) -> bool
    requires { node < length outline.now.nodes }
    ensures { result ≡ is_counted (shape_of outline.now) node }
{
    outline.kept();
    let scope = own_scope(outline, node);
    is_loop_at(outline, scope) && header_at(outline, scope) != node
}
