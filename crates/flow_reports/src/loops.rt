//! The lines of loops.

ghost use Rattle.std.specs.Prelude.{◌≡◌, ◌<◌, ◌++◌, length, OnOk};
ghost use Rattle.report_soundness.specs.ReportTold.{below, loop_lines};
ghost use Rattle.flow_gathering.specs.Gathering.{found_in, IsSized};

use crate::scopes::{is_loop_at, tell};
use domain_core::Outline;
use flow_facts::Fact;
use flow_gathering::Collected;
use std::alloc::AllocError;

// The line of a scope, if it is a loop with an execution.
fn tell_loop(
    facts: &mut Vec<Fact>,
    outline: &Outline,
    found: &Collected,
    scope: u32,
) -> Result<(), AllocError>
    requires sized { IsSized outline.now (found_in found.now) }
    requires scope { scope < length outline.now.scopes }
    ensures { OnOk result (facts.new.items ≡ facts.old.items ++ loop_lines outline.now (found_in found.now) scope) }
{
    if !is_loop_at(outline, scope) {
        return Ok(());
    }
    match found.books.first.second.loop_of(scope) {
        Some((low, high)) => tell(facts, Fact::Loop(scope, low, high)),
        None => Ok(()),
    }
}

/// The lines of all loops.
pub fn tell_loops(
    facts: &mut Vec<Fact>,
    outline: &Outline,
    found: &Collected,
) -> Result<(), AllocError>
    requires sized { IsSized outline.now (found_in found.now) }
    ensures { OnOk result
        (facts.new.items
        ≡ facts.old.items ++ below (loop_lines outline.now (found_in found.now)) (length outline.now.scopes)) }
{
    for s in 0..outline.scope_count() {
        tell_loop(facts, outline, found, s)?;
    }
    Ok(())
}
