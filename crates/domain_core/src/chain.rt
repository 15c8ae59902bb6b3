//! Scopes around a scope, by their parents.

ghost use Rattle.std.specs.Prelude.{◌≡◌, ◌<◌, ◌==◌, ℕ, Some, length, IfOk};
ghost use Rattle.std.specs.List.{list_any};
ghost use Rattle.domain_core.specs.Outlines.{parent_of, scopes_from};

use crate::ScopeRow;
use std::alloc::{AllocError, Global};

/// Whether the scope `target` is `from` or around it.
pub fn leads_to(scopes: &[ScopeRow], from: u32, target: u32) -> bool
    requires low { from < length scopes.now }
    requires parents { (s p : ℕ) → s < length scopes.now → parent_of scopes.now s ≡ Some p → p < length scopes.now }
    ensures { result ≡ list_any (λ s. target == s) (scopes_from scopes.now (length scopes.now) from) }
{
    let mut at = from;
    for _step in 0..scopes.len() {
        if at == target {
            return true;
        }
        match scopes[at as usize].parent {
            None => return false,
            Some(parent) => at = parent,
        }
    }
    false
}

/// The scope and those around it, from the innermost on.
pub fn chain(alloc: Global, scopes: &[ScopeRow], from: u32) -> Result<Vec<u32>, AllocError>
    requires low { from < length scopes.now }
    requires parents { (s p : ℕ) → s < length scopes.now → parent_of scopes.now s ≡ Some p → p < length scopes.now }
    ensures { IfOk result (λ chain. chain.items ≡ scopes_from scopes.now (length scopes.now) from) }
{
    let mut found = Vec::new(alloc);
    let mut at = from;
    for _step in 0..scopes.len() {
        found.push(at)?;
        match scopes[at as usize].parent {
            None => return Ok(found),
            Some(parent) => at = parent,
        }
    }
    Ok(found)
}
