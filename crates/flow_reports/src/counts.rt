//! The lines of counts.

ghost use Rattle.std.specs.Prelude.{◌≡◌, ◌<◌, ◌++◌, ◌&&◌, ◌==◌, length, OnOk};
ghost use Rattle.domain_core.specs.Outlines.{shape_of};
ghost use Rattle.recorder_rules.specs.LoopRules.{own_of, is_counted};
ghost use Rattle.report_soundness.specs.ReportTold.{below, is_stepped, count_line, count_lines};
ghost use Rattle.flow_gathering.specs.Gathering.{found_in, IsSized};

use crate::scopes::{is_counted_at, own_scope, tell};
use domain_core::Outline;
use flow_facts::Fact;
use flow_gathering::Collected;
use std::alloc::AllocError;

// Whether the node is told in the executions of the scope.
fn is_told(outline: &Outline, found: &Collected, scope: u32, node: u32) -> bool
    requires sized { IsSized outline.now (found_in found.now) }
    requires node { node < length outline.now.nodes }
    ensures { result
        ≡ (is_stepped (found_in found.now) node &&
        (is_counted (shape_of outline.now) node && (own_of (shape_of outline.now) node == scope))) }
{
    found.stepped[node as usize]
        && is_counted_at(outline, node)
        && own_scope(outline, node) == scope
}

// The line of a node in the executions of a scope, if it has one.
fn tell_count(
    facts: &mut Vec<Fact>,
    outline: &Outline,
    found: &Collected,
    scope: u32,
    node: u32,
) -> Result<(), AllocError>
    requires sized { IsSized outline.now (found_in found.now) }
    requires node { node < length outline.now.nodes }
    ensures { OnOk result
        (facts.new.items ≡ facts.old.items ++ count_line outline.now (found_in found.now) scope node) }
{
    if !is_told(outline, found, scope, node) {
        return Ok(());
    }
    match found.books.second.first.count_of(node) {
        Some((low, high)) => tell(facts, Fact::Count(scope, node, low, high)),
        None => Ok(()),
    }
}

// The lines of the nodes of a scope.
fn tell_counts_in(
    facts: &mut Vec<Fact>,
    outline: &Outline,
    found: &Collected,
    scope: u32,
) -> Result<(), AllocError>
    requires sized { IsSized outline.now (found_in found.now) }
    ensures { OnOk result (facts.new.items ≡ facts.old.items ++ count_lines outline.now (found_in found.now) scope) }
{
    for n in 0..outline.node_count() {
        tell_count(facts, outline, found, scope, n)?;
    }
    Ok(())
}

/// The lines of all counts.
pub fn tell_counts(
    facts: &mut Vec<Fact>,
    outline: &Outline,
    found: &Collected,
) -> Result<(), AllocError>
    requires sized { IsSized outline.now (found_in found.now) }
    ensures { OnOk result
        (facts.new.items
        ≡ facts.old.items ++ below (count_lines outline.now (found_in found.now)) (length outline.now.scopes)) }
{
    for s in 0..outline.scope_count() {
        tell_counts_in(facts, outline, found, s)?;
    }
    Ok(())
}
