//! The lines of totals, and of nodes that were never stepped.

ghost use Rattle.std.specs.Prelude.{◌≡◌, ◌<◌, ◌++◌, length, OnOk};
ghost use Rattle.report_soundness.specs.ReportTold.{below, dead_lines, total_lines};
ghost use Rattle.flow_gathering.specs.Gathering.{found_in, IsSized};

use crate::scopes::tell;
use domain_core::Outline;
use flow_facts::Fact;
use flow_gathering::Collected;
use std::alloc::AllocError;

// The line of a node, if it was never stepped.
fn tell_dead(facts: &mut Vec<Fact>, found: &Collected, node: u32) -> Result<(), AllocError>
    requires { node < length found.now.stepped.items }
    ensures { OnOk result (facts.new.items ≡ facts.old.items ++ dead_lines (found_in found.now) node) }
{
    if found.stepped[node as usize] {
        return Ok(());
    }
    tell(facts, Fact::Dead(node))
}

/// The lines of the nodes that were never stepped.
pub fn tell_deads(
    facts: &mut Vec<Fact>,
    outline: &Outline,
    found: &Collected,
) -> Result<(), AllocError>
    requires sized { IsSized outline.now (found_in found.now) }
    ensures { OnOk result
        (facts.new.items ≡ facts.old.items ++ below (dead_lines (found_in found.now)) (length outline.now.nodes)) }
{
    for n in 0..outline.node_count() {
        tell_dead(facts, found, n)?;
    }
    Ok(())
}

// The line of a node, if it was stepped.
fn tell_total(facts: &mut Vec<Fact>, found: &Collected, node: u32) -> Result<(), AllocError>
    requires stepped { node < length found.now.stepped.items }
    requires totals { node < length found.now.books.now.first.first }
    ensures { OnOk result (facts.new.items ≡ facts.old.items ++ total_lines (found_in found.now) node) }
{
    if !found.stepped[node as usize] {
        return Ok(());
    }
    match found.books.first.first.total_of(node) {
        Some((low, high)) => tell(facts, Fact::Total(node, low, high)),
        None => Ok(()),
    }
}

/// The lines of all others.
pub fn tell_totals(
    facts: &mut Vec<Fact>,
    outline: &Outline,
    found: &Collected,
) -> Result<(), AllocError>
    requires sized { IsSized outline.now (found_in found.now) }
    ensures { OnOk result
        (facts.new.items ≡ facts.old.items ++ below (total_lines (found_in found.now)) (length outline.now.nodes)) }
{
    for n in 0..outline.node_count() {
        tell_total(facts, found, n)?;
    }
    Ok(())
}
