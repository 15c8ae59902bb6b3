//! What is counted in an outline, and the spans of a run that begins.

ghost use Rattle.std.specs.Prelude.{◌≡◌, ◌<◌, length, IfOk, Some, Option, if◌then◌else◌};
ghost use Rattle.domain_core.specs.Outlines.{shape_of, header_of};
ghost use Rattle.recorder_rules.specs.Generated.{generated};
ghost use Rattle.recorder_rules.specs.TallyRules.{key_at, is_at};
ghost use Rattle.recorder_rules.specs.LoopRules.{is_counted, counted_node, counted_scope, own_of};

use crate::span_list::SpanList;
use domain_core::{Outline, ScopeKind};
use std::alloc::{AllocError, Global};

/// The spans of a run that begins at node 0.
pub fn begun(alloc: Global, nodes: &[Option<u32>]) -> Result<SpanList, AllocError>
    ensures { IfOk result
        (λ spans. spans ≡ generated (length nodes.now) (λ i. if is_at (key_at nodes.now i) 0 then (1, 1) else (0, 0))) }
{
    let mut counts = Vec::with_capacity(alloc, nodes.len())?;
    for i in 0..nodes.len() {
        counts.push(begun_at(nodes[i]))?;
    }
    SpanList::only(alloc, counts)
}

/// The visits of a number's node, which is visited where it is node 0.
fn begun_at(node: Option<u32>) -> u32
    ensures { result ≡ (if is_at node 0 then 1 else 0) }
{
    match node {
        None => 0,
        Some(n) => if n == 0 { 1 } else { 0 },
    }
}

/// Each scope, at its own number.
pub fn each_scope(alloc: Global, outline: &Outline) -> Result<Vec<Option<u32>>, AllocError>
    ensures { IfOk result (λ keys. keys.items ≡ generated (length outline.now.scopes) (λ t. Some t)) }
{
    let mut keys = Vec::new(alloc);
    for t in 0..outline.scope_count() {
        keys.push(Some(t))?;
    }
    Ok(keys)
}

/// The header of each scope.
pub fn each_header(alloc: Global, outline: &Outline) -> Result<Vec<Option<u32>>, AllocError>
    ensures { IfOk result
        (λ keys. keys.items ≡ generated (length outline.now.scopes) (λ t. Some (header_of outline.now.scopes t))) }
{
    let mut keys = Vec::new(alloc);
    for t in 0..outline.scope_count() {
        keys.push(Some(outline.scope(t).header))?;
    }
    Ok(keys)
}

/// The scope of a node.
pub fn own_scope(outline: &Outline, node: u32) -> u32
    requires { node < length outline.now.nodes }
    ensures { result ≡ own_of (shape_of outline.now) node }
{
    outline.node(node).scope
}

/// Whether the node is counted: it is not the header of its scope, which is a loop.
fn is_counted_at(outline: &Outline, node: u32) -> bool
    requires { node < length outline.now.nodes }
    ensures { result ≡ is_counted (shape_of outline.now) node }
{
    outline.kept();
    let scope = outline.scope(own_scope(outline, node));
    match scope.kind {
        ScopeKind::Call => false,
        ScopeKind::Loop => scope.header != node,
    }
}

/// The node, where it is counted.
fn node_key(outline: &Outline, node: u32) -> Option<u32>
    requires { node < length outline.now.nodes }
    ensures { result ≡ counted_node (shape_of outline.now) node }
{
    if is_counted_at(outline, node) {
        Some(node)
    } else {
        None
    }
}

/// Its scope, where it is counted.
fn scope_key(outline: &Outline, node: u32) -> Option<u32>
    requires { node < length outline.now.nodes }
    ensures { result ≡ counted_scope (shape_of outline.now) node }
{
    if is_counted_at(outline, node) {
        Some(own_scope(outline, node))
    } else {
        None
    }
}

/// Each counted node, at its own number.
pub fn counted_nodes(alloc: Global, outline: &Outline) -> Result<Vec<Option<u32>>, AllocError>
    ensures { IfOk result
        (λ keys. keys.items ≡ generated (length outline.now.nodes) (counted_node (shape_of outline.now))) }
{
    let mut keys = Vec::new(alloc);
    for n in 0..outline.node_count() {
        keys.push(node_key(outline, n))?;
    }
    Ok(keys)
}

/// The scope of each counted node.
pub fn counted_scopes(alloc: Global, outline: &Outline) -> Result<Vec<Option<u32>>, AllocError>
    ensures { IfOk result
        (λ keys. keys.items ≡ generated (length outline.now.nodes) (counted_scope (shape_of outline.now))) }
{
    let mut keys = Vec::new(alloc);
    for n in 0..outline.node_count() {
        keys.push(scope_key(outline, n))?;
    }
    Ok(keys)
}
