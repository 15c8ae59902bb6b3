//! Where nodes stand in a program.

ghost use Rattle.std.specs.Prelude.{◌≡◌, ◌≢◌, ◌<◌, ◌∷◌, true, false, length, reverse};
ghost use Rattle.domain_core.specs.Scopes.{path_at, Extends, IsCalledFrom};
ghost use Rattle.scope_graph.specs.Placing.{plan_of};

use flow_graph::Graph;

/// Whether the node lies in the instance of the other, or in one called from there.
pub fn is_under(graph: &Graph, header: u32, n: u32) -> bool
    requires from { header < length graph.now.nodes }
    requires to { n < length graph.now.nodes }
    ensures yes { result ≡ true → Extends (path_at (plan_of graph.now) n) (path_at (plan_of graph.now) header) }
    ensures no { result ≡ false → Extends (path_at (plan_of graph.now) n) (path_at (plan_of graph.now) header) → ⊥ }
{
    graph.node(n).path.starts_with(graph.node(header).path)
}

/// Whether the two nodes lie in one instance.
pub fn has_same_path(graph: &Graph, m: u32, n: u32) -> bool
    requires first { m < length graph.now.nodes }
    requires second { n < length graph.now.nodes }
    ensures yes { result ≡ true → path_at (plan_of graph.now) m ≡ path_at (plan_of graph.now) n }
    ensures no { result ≡ false → path_at (plan_of graph.now) m ≢ path_at (plan_of graph.now) n }
{
    graph.node(m).path == graph.node(n).path
}

/// Whether the node n lies in the instance that m calls.
pub fn is_called_from(graph: &Graph, m: u32, n: u32) -> bool
    requires from { m < length graph.now.nodes }
    requires to { n < length graph.now.nodes }
    ensures yes { result ≡ true → IsCalledFrom (plan_of graph.now) m n }
    ensures no { result ≡ false → IsCalledFrom (plan_of graph.now) m n → ⊥ }
{
    let caller = graph.node(m);
    match caller.block {
        None => false,
        Some(call) => goes_on_by(graph.node(n).path, caller.path, call),
    }
}

// Whether the path from the root on begins with another and then the call.
fn goes_on_by(path: &[u32], prefix: &[u32], call: u32) -> bool
    ensures yes { result ≡ true → Extends (reverse path.now) (call ∷ reverse prefix.now) }
    ensures no { result ≡ false → Extends (reverse path.now) (call ∷ reverse prefix.now) → ⊥ }
{
    if path.len() <= prefix.len() {
        return false;
    }
    if path[prefix.len()] != call {
        return false;
    }
    path.starts_with(prefix)
}
