//! The scopes that a step leaves.

ghost use Rattle.std.specs.Prelude.{◌≡◌, ℕ, ◌<◌, ◌==◌, length, IfOk, IfSome};
ghost use Rattle.std.specs.List.{list_any};
ghost use Rattle.domain_core.specs.Outlines.{shape_of};
ghost use Rattle.recorder_rules.specs.TallyRules.{is_left};
ghost use Rattle.flow_recorders.specs.Climbs.{near};

use domain_core::Outline;
use std::alloc::{AllocError, Global};

/// The scopes that hold the node `from` and not the node `to`.
///
/// Where `to` has its own scope or the one around it in common with `from`, as at each step within a graph
/// whose loops have headers of their own, it takes time by the scopes that are left.
pub fn left_scopes(
    alloc: Global,
    outline: &Outline,
    from: u32,
    to: u32,
) -> Result<Vec<u32>, AllocError>
    requires from { from < length outline.now.nodes }
    requires to { to < length outline.now.nodes }
    ensures { IfOk result
        (λ left. (t : ℕ) → list_any (λ s. t == s) left.items ≡ is_left (shape_of outline.now) t from to) }
{
    match left_nearby(alloc, outline, from, to)? {
        Some(left) => Ok(left),
        None => left_by_walks(alloc, outline, from, to),
    }
}

/// Whether the scope is that of a node, or the one around it.
fn is_near(own: u32, around: Option<u32>, scope: u32) -> bool
    ensures { result ≡ near own around scope }
{
    if own == scope {
        return true;
    }
    match around {
        None => false,
        Some(parent) => parent == scope,
    }
}

/// The same, by a walk up from the own scope of `from` to that of `to` or to the one around it. None where
/// it comes to neither.
fn left_nearby(
    alloc: Global,
    outline: &Outline,
    from: u32,
    to: u32,
) -> Result<Option<Vec<u32>>, AllocError>
    requires from { from < length outline.now.nodes }
    requires to { to < length outline.now.nodes }
    ensures { IfOk result
        (λ found. IfSome found
        (λ left. (t : ℕ) → list_any (λ s. t == s) left.items ≡ is_left (shape_of outline.now) t from to)) }
{
    outline.kept();
    let own = outline.node(to).scope;
    let around = outline.scope(own).parent;
    let mut left = Vec::new(alloc);
    let mut scope = outline.node(from).scope;
    for step in 0..outline.scope_count() {
        if is_near(own, around, scope) {
            return Ok(Some(left));
        }
        left.push(scope)?;
        match outline.scope(scope).parent {
            None => return Ok(None),
            Some(parent) => scope = parent,
        }
    }
    Ok(None)
}

/// The same, by a test of each scope. The walk goes up from the own scope of `from` to the first one that
/// stays.
fn left_by_walks(
    alloc: Global,
    outline: &Outline,
    from: u32,
    to: u32,
) -> Result<Vec<u32>, AllocError>
    requires from { from < length outline.now.nodes }
    requires to { to < length outline.now.nodes }
    ensures { IfOk result
        (λ left. (t : ℕ) → list_any (λ s. t == s) left.items ≡ is_left (shape_of outline.now) t from to) }
{
    outline.kept();
    let mut left = Vec::new(alloc);
    let mut scope = outline.node(from).scope;
    for step in 0..outline.scope_count() {
        if outline.holds(scope, to) {
            return Ok(left);
        }
        left.push(scope)?;
        match outline.scope(scope).parent {
            None => return Ok(left),
            Some(parent) => scope = parent,
        }
    }
    Ok(left)
}
