//! The nodes of scopes, as marks.

ghost use Rattle.std.specs.Prelude.{◌≡◌, ◌<◌, ◌-◌, ◌||◌, ℕ, true, false, length, IfOk};
ghost use Rattle.graph_walks.specs.MarkedNodes.{IsMarked};
ghost use Rattle.domain_core.specs.Scopes.{path_at, Extends};
ghost use Rattle.scope_graph.specs.Placing.{plan_of};
ghost use Rattle.scope_graph.specs.Members.{MarksExactly, IsTaken, IsCalled, Tells};

use crate::place::{has_same_path, is_called_from, is_under};
use flow_graph::Graph;
use std::alloc::{AllocError, Global};

/// Marks the nodes of the instance whose entry is the header, and of all that it calls.
pub fn call_members(alloc: Global, graph: &Graph, header: u32) -> Result<Vec<bool>, AllocError>
    requires { header < length graph.now.nodes }
    ensures { IfOk result (λ marks. MarksExactly (length graph.now.nodes)
        (λ n. Extends (path_at (plan_of graph.now) n) (path_at (plan_of graph.now) header)) marks.items) }
{
    let mut marks = Vec::new(alloc);
    for n in 0..graph.node_count() {
        let held = is_under(graph, header, n);
        marks.push(held)?;
    }
    Ok(marks)
}

/// Marks the nodes of a loop's body, and of all that they call.
pub fn loop_members(alloc: Global, graph: &Graph, body: &[bool]) -> Result<Vec<bool>, AllocError>
    requires long { length graph.now.nodes < length body.now }
    requires low { (m : ℕ) → IsMarked body.now m → m < length graph.now.nodes }
    ensures { IfOk result
        (λ marks. MarksExactly (length graph.now.nodes) (IsTaken (plan_of graph.now) body.now) marks.items) }
{
    let mut marks = Vec::new(alloc);
    let mut called = false;
    for n in 0..graph.node_count() {
        called = called_at(graph, body, n, called);
        let held = either(body[n as usize], called);
        marks.push(held)?;
    }
    Ok(marks)
}

// Whether one of the two is true.
fn either(first: bool, second: bool) -> bool
    ensures { result ≡ (first || second) }
{
    first || second
}

// Whether the node lies in an instance that a marked node calls. For the node before, this is told:
// nodes of one instance stand next to each other, so few are asked.
fn called_at(graph: &Graph, body: &[bool], n: u32, before: bool) -> bool
    requires long { length graph.now.nodes < length body.now }
    requires low { (m : ℕ) → IsMarked body.now m → m < length graph.now.nodes }
    requires to { n < length graph.now.nodes }
    requires told { 0 < n → Tells before (IsCalled (plan_of graph.now) body.now (n - 1)) }
    ensures { Tells result (IsCalled (plan_of graph.now) body.now n) }
{
    if n > 0 && has_same_path(graph, n - 1, n) {
        return before;
    }
    is_called(graph, body, n)
}

// Whether the node lies in an instance that a marked node calls.
fn is_called(graph: &Graph, body: &[bool], n: u32) -> bool
    requires long { length graph.now.nodes < length body.now }
    requires low { (m : ℕ) → IsMarked body.now m → m < length graph.now.nodes }
    requires to { n < length graph.now.nodes }
    ensures { Tells result (IsCalled (plan_of graph.now) body.now n) }
{
    for m in 0..graph.node_count() {
        if body[m as usize] && is_called_from(graph, m, n) {
            return true;
        }
    }
    false
}
