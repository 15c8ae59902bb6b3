//! Nodes and headers of scopes.

ghost use Rattle.std.specs.Prelude.{◌≡◌, ◌<◌, length};
ghost use Rattle.domain_core.specs.Outlines.{shape_of, is_held, header_of};

use domain_core::Outline;

/// Whether the scope holds the node.
pub fn is_inside(outline: &Outline, scope: u32, node: u32) -> bool
    requires { node < length outline.now.nodes }
    ensures { result ≡ is_held (shape_of outline.now) scope node }
{
    outline.kept();
    outline.holds(scope, node)
}

/// The header of the scope.
pub fn header(outline: &Outline, scope: u32) -> u32
    requires { scope < length outline.now.scopes }
    ensures { result ≡ header_of outline.now.scopes scope }
{
    outline.scope(scope).header
}
