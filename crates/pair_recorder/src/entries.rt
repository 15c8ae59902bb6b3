//! Nodes in the order in which a run entered them.

ghost use Rattle.std.specs.Prelude.{◌≡◌, ◌<◌, ◌++◌, ◌∷◌, [], ◌==◌, ◌↔◌, IsTrue, IfOk, OnOk, ℕ, length, filter, not};
ghost use Rattle.std.specs.List.{list_any};
ghost use Rattle.domain_core.specs.Outlines.{shape_of};
ghost use Rattle.pair_recorder.specs.Paths.{AreBelow, AreOwn, with_scope, scopes_in};

use crate::seen::{Seen, is_own, is_within};
use domain_core::Outline;
use std::alloc::{AllocError, Global};

/// Whether each scope is the own scope of its node.
pub fn are_own(outline: &Outline, entries: &[Seen]) -> bool
    requires { AreBelow (length outline.now.nodes) entries.now }
    ensures { IsTrue result ↔ AreOwn (shape_of outline.now) entries.now }
{
    for seen in entries {
        if !is_own(outline, seen) {
            return false;
        }
    }
    true
}

/// Adds a node. Takes room for no more, since a copy has none to spare.
pub fn enter_node(entries: &mut Vec<Seen>, seen: Seen) -> Result<(), AllocError>
    ensures entered { OnOk result (entries.new.items ≡ entries.old.items ++ seen ∷ []) }
    ensures below { (n : ℕ) → AreBelow n entries.old.items → seen.node < n → AreBelow n entries.new.items }
{
    entries.reserve_exact(1)?;
    match entries.push(seen) {
        Ok(()) => Ok(()),
        Err(_) => Err(AllocError),
    }
}

/// Takes out the nodes that were entered in one of the scopes.
pub fn leave_scopes(entries: &mut Vec<Seen>, scopes: &[u32])
    ensures { entries.new.items ≡ filter (λ e. not (list_any (λ s. e.scope == s) scopes.now)) entries.old.items }
{
    entries.retain(|seen| !is_within(seen, scopes));
}

/// Adds the scope where it is not among them.
fn add_scope(scopes: &mut Vec<u32>, seen: &Seen) -> Result<(), AllocError>
    ensures { OnOk result (scopes.new.items ≡ with_scope scopes.old.items seen.now.scope) }
{
    if !is_within(seen, scopes) {
        scopes.push(seen.scope as u32)?;
    }
    Ok(())
}

/// The scopes in which nodes were entered, each once, in the order in which they are met first.
pub fn scopes_of(alloc: Global, entries: &[Seen]) -> Result<Vec<u32>, AllocError>
    ensures { IfOk result (λ scopes. scopes.items ≡ scopes_in entries.now) }
{
    let mut scopes = Vec::new(alloc);
    for seen in entries {
        add_scope(&mut scopes, seen)?;
    }
    Ok(scopes)
}
