//! The nodes of iterations that end with a step.

ghost use Rattle.std.specs.Prelude.{◌≡◌, ℕ, ◌*◌, ◌<◌, ◌≤◌, ◌==◌, ◌||◌, ◌&&◌, length, IfOk, OnOk, All};
ghost use Rattle.std.specs.List.{list_any};
ghost use Rattle.domain_core.specs.Outlines.{shape_of, is_held, header_of};
ghost use Rattle.recorder_rules.specs.LoopRules.{own_of};
ghost use Rattle.recorder_rules.specs.PairRules.{ends};
ghost use Rattle.recorder_rules.specs.BitWords.{is_marked, AreOwned};

use crate::words::add_words;
use domain_core::Outline;
use flow_recorders::left_scopes;
use std::alloc::{AllocError, Global};

/// Adds the scope where the node is its header.
fn add_headed(
    outline: &Outline,
    scope: u32,
    node: u32,
    ended: &mut Vec<u32>,
) -> Result<(), AllocError>
    requires { scope < length outline.now.scopes }
    ensures { OnOk result
        ((t : ℕ)
        → list_any (λ s. t == s) ended.new.items
        ≡ (list_any (λ s. t == s) ended.old.items || ((t == scope) && (header_of outline.now.scopes scope == node)))) }
{
    if outline.scope(scope).header == node {
        ended.push(scope)?;
    }
    Ok(())
}

/// Adds the scopes that hold the node `from` and have the header `to`.
fn add_all_headed(
    outline: &Outline,
    from: u32,
    to: u32,
    ended: &mut Vec<u32>,
) -> Result<(), AllocError>
    requires from { from < length outline.now.nodes }
    ensures { OnOk result
        ((t : ℕ)
        → list_any (λ s. t == s) ended.new.items
        ≡ (list_any (λ s. t == s) ended.old.items ||
        (is_held (shape_of outline.now) t from && (header_of outline.now.scopes t == to)))) }
{
    outline.kept();
    let mut scope = outline.node(from).scope;
    for step in 0..outline.scope_count() {
        add_headed(outline, scope, to, ended)?;
        match outline.scope(scope).parent {
            None => return Ok(()),
            Some(parent) => scope = parent,
        }
    }
    Ok(())
}

/// The scopes of which an iteration ends with the step: those that it leaves, and those whose header it
/// enters from inside.
pub fn ended_scopes(
    alloc: Global,
    outline: &Outline,
    from: u32,
    to: u32,
) -> Result<Vec<u32>, AllocError>
    requires from { from < length outline.now.nodes }
    requires to { to < length outline.now.nodes }
    ensures { IfOk result
        (λ ended. (t : ℕ) → list_any (λ s. t == s) ended.items ≡ ends (shape_of outline.now) t from to) }
{
    let mut ended = left_scopes(alloc, outline, from, to)?;
    add_all_headed(outline, from, to, &mut ended)?;
    Ok(ended)
}

/// Adds the nodes of the scope.
fn add_owned(owned: &[u64], scopes: usize, scope: u32, marks: &mut [u64])
    requires scope { scope < scopes }
    requires owned { length owned.now ≡ scopes * length marks.old }
    ensures { (b : ℕ) → b < 64 * length marks.old
        → is_marked marks.new 0 b ≡ (is_marked marks.old 0 b || is_marked owned.now (scope * length marks.old) b) }
{
    let width = marks.len();
    add_words(marks, 0, owned, scope as usize * width, width);
}

/// Adds the nodes of each of the scopes.
fn add_all_owned(owned: &[u64], count: usize, scopes: &[u32], marks: &mut [u64])
    requires scopes { All (λ s. s < count) scopes.now }
    requires owned { length owned.now ≡ count * length marks.old }
    ensures { (b : ℕ) → b < 64 * length marks.old
        → is_marked marks.new 0 b
        ≡ (is_marked marks.old 0 b || list_any (λ s. is_marked owned.now (s * length marks.old) b) scopes.now) }
{
    for scope in scopes {
        add_owned(owned, count, *scope, marks);
    }
}

/// The nodes whose own scope is one of those that have an iteration that ends with a step, as marks.
pub fn ended_nodes(
    alloc: Global,
    outline: &Outline,
    owned: &[u64],
    width: usize,
    ended: &[u32],
    from: u32,
    to: u32,
) -> Result<Vec<u64>, AllocError>
    requires from { from < length outline.now.nodes }
    requires ended { (t : ℕ) → list_any (λ s. t == s) ended.now ≡ ends (shape_of outline.now) t from to }
    requires length { length owned.now ≡ length outline.now.scopes * width }
    requires width { length outline.now.nodes ≤ 64 * width }
    requires owned { AreOwned (shape_of outline.now) (length outline.now.scopes) (length outline.now.nodes) width
        owned.now }
    ensures length { IfOk result (λ marks. length marks.items ≡ width) }
    ensures ended { IfOk result
        (λ marks. (a : ℕ) → a < length outline.now.nodes
        → is_marked marks.items 0 a ≡ ends (shape_of outline.now) (own_of (shape_of outline.now) a) from to) }
{
    outline.kept();
    let mut marks = vec![in alloc; 0u64; width]?;
    let count = outline.scope_count() as usize;
    add_all_owned(owned, count, ended, &mut marks);
    Ok(marks)
}
