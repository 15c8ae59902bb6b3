//! The lines of pairs.

ghost use Rattle.std.specs.Prelude.{◌≡◌, ◌<◌, ◌++◌, ◌&&◌, not, nat_lt, length, OnOk};
ghost use Rattle.recorder_rules.specs.PairRules.{together};
ghost use Rattle.report_soundness.specs.ReportTold.{below, may_pair, pair_line, pairs_with, pair_lines};
ghost use Rattle.flow_gathering.specs.Gathering.{found_in, IsSized};

use crate::scopes::{header_at, own_scope, tell};
use domain_core::Outline;
use flow_facts::Fact;
use flow_gathering::Collected;
use std::alloc::AllocError;

// Whether the node was stepped, is of this own scope, and is not its header.
fn may_pair_at(outline: &Outline, found: &Collected, scope: u32, node: u32) -> bool
    requires sized { IsSized outline.now (found_in found.now) }
    requires scope { scope < length outline.now.scopes }
    requires node { node < length outline.now.nodes }
    ensures { result ≡ may_pair outline.now (found_in found.now) scope node }
{
    found.stepped[node as usize]
        && own_scope(outline, node) == scope
        && header_at(outline, scope) != node
}

// Whether the two are in order, and are told as a pair.
fn is_pair(outline: &Outline, found: &Collected, scope: u32, a: u32, b: u32) -> bool
    requires sized { IsSized outline.now (found_in found.now) }
    requires scope { scope < length outline.now.scopes }
    requires first { a < length outline.now.nodes }
    requires second { b < length outline.now.nodes }
    ensures { result
        ≡ (nat_lt a b &&
        (may_pair outline.now (found_in found.now) scope b && not (together found.now.books.now.second.second a b))) }
{
    a < b && may_pair_at(outline, found, scope, b) && !found.books.second.second.together(a, b)
}

// The line of two nodes of a scope, if they are a pair.
fn tell_pair(
    facts: &mut Vec<Fact>,
    outline: &Outline,
    found: &Collected,
    scope: u32,
    a: u32,
    b: u32,
) -> Result<(), AllocError>
    requires sized { IsSized outline.now (found_in found.now) }
    requires scope { scope < length outline.now.scopes }
    requires first { a < length outline.now.nodes }
    requires second { b < length outline.now.nodes }
    ensures { OnOk result (facts.new.items ≡ facts.old.items ++ pair_line outline.now (found_in found.now) scope a b) }
{
    if !is_pair(outline, found, scope, a, b) {
        return Ok(());
    }
    tell(facts, Fact::Pair(scope, a, b))
}

// The lines of the pairs of a scope that begin with a node, which may be one of a pair.
fn tell_pairs_from(
    facts: &mut Vec<Fact>,
    outline: &Outline,
    found: &Collected,
    scope: u32,
    a: u32,
) -> Result<(), AllocError>
    requires sized { IsSized outline.now (found_in found.now) }
    requires scope { scope < length outline.now.scopes }
    requires first { a < length outline.now.nodes }
    ensures { OnOk result
        (facts.new.items
        ≡ facts.old.items ++ below (pair_line outline.now (found_in found.now) scope a) (length outline.now.nodes)) }
{
    for b in 0..outline.node_count() {
        tell_pair(facts, outline, found, scope, a, b)?;
    }
    Ok(())
}

// The lines of the pairs of a scope that begin with a node.
fn tell_pairs_with(
    facts: &mut Vec<Fact>,
    outline: &Outline,
    found: &Collected,
    scope: u32,
    a: u32,
) -> Result<(), AllocError>
    requires sized { IsSized outline.now (found_in found.now) }
    requires scope { scope < length outline.now.scopes }
    requires first { a < length outline.now.nodes }
    ensures { OnOk result (facts.new.items ≡ facts.old.items ++ pairs_with outline.now (found_in found.now) scope a) }
{
    if !may_pair_at(outline, found, scope, a) {
        return Ok(());
    }
    tell_pairs_from(facts, outline, found, scope, a)
}

// The lines of the pairs of a scope.
fn tell_pairs_in(
    facts: &mut Vec<Fact>,
    outline: &Outline,
    found: &Collected,
    scope: u32,
) -> Result<(), AllocError>
    requires sized { IsSized outline.now (found_in found.now) }
    requires scope { scope < length outline.now.scopes }
    ensures { OnOk result (facts.new.items ≡ facts.old.items ++ pair_lines outline.now (found_in found.now) scope) }
{
    for a in 0..outline.node_count() {
        tell_pairs_with(facts, outline, found, scope, a)?;
    }
    Ok(())
}

/// The lines of all pairs.
pub fn tell_pairs(
    facts: &mut Vec<Fact>,
    outline: &Outline,
    found: &Collected,
) -> Result<(), AllocError>
    requires sized { IsSized outline.now (found_in found.now) }
    ensures { OnOk result
        (facts.new.items
        ≡ facts.old.items ++ below (pair_lines outline.now (found_in found.now)) (length outline.now.scopes)) }
{
    for s in 0..outline.scope_count() {
        tell_pairs_in(facts, outline, found, s)?;
    }
    Ok(())
}
