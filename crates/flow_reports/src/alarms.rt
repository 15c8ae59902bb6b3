//! The lines of alarms.

ghost use Rattle.std.specs.Prelude.{◌≡◌, ◌<◌, ◌++◌, length, OnOk};
ghost use Rattle.report_soundness.specs.ReportTold.{below, alarm_line, alarm_lines};
ghost use Rattle.flow_gathering.specs.Gathering.{found_in, IsSized};

use crate::scopes::tell;
use alf_ops::RunFault;
use domain_core::{FaultSet, Outline};
use flow_facts::Fact;
use flow_gathering::Collected;
use std::alloc::AllocError;

// The line of a fault at a node, if it was told there.
fn tell_alarm(
    facts: &mut Vec<Fact>,
    set: FaultSet,
    node: u32,
    fault: RunFault,
) -> Result<(), AllocError>
    ensures { OnOk result (facts.new.items ≡ facts.old.items ++ alarm_line set node fault) }
{
    if !set.has(fault) {
        return Ok(());
    }
    tell(facts, Fact::Alarm(node, fault))
}

// The lines of a node, by the numbers of faults.
fn tell_alarms_at(facts: &mut Vec<Fact>, found: &Collected, node: u32) -> Result<(), AllocError>
    requires { node < length found.now.alarms.items }
    ensures { OnOk result (facts.new.items ≡ facts.old.items ++ alarm_lines (found_in found.now) node) }
{
    let set = found.alarms[node as usize];
    tell_alarm(facts, set, node, RunFault::Divide)?;
    tell_alarm(facts, set, node, RunFault::Uninit)?;
    tell_alarm(facts, set, node, RunFault::Mixed)?;
    tell_alarm(facts, set, node, RunFault::Bounds)?;
    tell_alarm(facts, set, node, RunFault::Dead)?;
    tell_alarm(facts, set, node, RunFault::Kind)?;
    tell_alarm(facts, set, node, RunFault::Pointers)
}

/// The lines of all alarms.
pub fn tell_alarms(
    facts: &mut Vec<Fact>,
    outline: &Outline,
    found: &Collected,
) -> Result<(), AllocError>
    requires sized { IsSized outline.now (found_in found.now) }
    ensures { OnOk result
        (facts.new.items ≡ facts.old.items ++ below (alarm_lines (found_in found.now)) (length outline.now.nodes)) }
{
    for n in 0..outline.node_count() {
        tell_alarms_at(facts, found, n)?;
    }
    Ok(())
}
