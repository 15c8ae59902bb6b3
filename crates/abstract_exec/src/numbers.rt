//! Numbers of scopes in positions.

ghost use Rattle.std.specs.Prelude.{◌≡◌, ◌<◌, ◌-◌, ◌^◌, ℕ, IsTrue, false, Some, length, slice_index};
ghost use Rattle.domain_core.specs.Outlines.{LeadsTo, parent_of, shape_of};
ghost use Rattle.domain_core.specs.Executions.{is_header};
ghost use Rattle.worklist_rules.specs.Positions.{header_rank, turn_in, entered};

use domain_core::Outline;

/// The number of a scope in the position of a node with these scopes around it, or 0.
pub fn number_in(scopes: &[u32], position: &[u32], scope: u32) -> u32
    ensures { result ≡ turn_in scopes.now position.now scope }
{
    let mut scopes = scopes;
    let mut position = position;
    while let Some((first, others)) = scopes.split_first() {
        let Some((_rank, numbers)) = position.split_first() else {
            return 0;
        };
        let Some((number, rest)) = numbers.split_first() else {
            return 0;
        };
        if scope == *first {
            return *number;
        }
        scopes = others;
        position = rest;
    }
    0
}

/// The rank of the header of a scope.
pub fn rank_of_header(outline: &Outline, scope: u32) -> u32
    requires { scope < length outline.now.scopes }
    ensures { result ≡ header_rank (shape_of outline.now) scope }
{
    outline.kept();
    outline.node(outline.scope(scope).header).rank
}

/// The number of a scope around a node once the node is entered, from its number before.
pub fn number_after(outline: &Outline, node: u32, scope: u32, number: u32) -> u32
    requires scope { scope < length outline.now.scopes }
    requires room { number < 2 ^ 32 - 1 }
    ensures { result ≡ entered (shape_of outline.now) node scope number }
{
    if outline.scope(scope).header == node {
        number + 1
    } else {
        number
    }
}

/// Whether the node is the header of none of the scopes from this one outwards.
fn heads_none(outline: &Outline, scope: u32, node: u32) -> bool
    requires { scope < length outline.now.scopes }
    ensures { IsTrue result → (t : ℕ) → LeadsTo outline.now.scopes t scope
        → is_header (shape_of outline.now) t node ≡ false }
{
    outline.kept();
    let mut at = scope;
    for _step in 0..outline.scope_count() {
        let row = outline.scope(at);
        if row.header == node {
            return false;
        }
        match row.parent {
            None => return true,
            Some(parent) => at = parent,
        }
    }
    false
}

/// Whether the node is the header of no scope around its own one, so that these keep their numbers when it is entered.
pub fn keeps_outer_numbers(outline: &Outline, node: u32) -> bool
    requires { node < length outline.now.nodes }
    ensures { IsTrue result → (t p : ℕ)
        → parent_of outline.now.scopes (slice_index (shape_of outline.now).own node) ≡ Some p
        → LeadsTo outline.now.scopes t p → is_header (shape_of outline.now) t node ≡ false }
{
    outline.kept();
    match outline.scope(outline.node(node).scope).parent {
        None => true,
        Some(parent) => heads_none(outline, parent, node),
    }
}
