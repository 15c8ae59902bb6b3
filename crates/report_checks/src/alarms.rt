//! Faults that were told, against the alarms of a report.

ghost use Rattle.std.specs.Prelude.{◌≡◌, ◌<◌, ◌&&◌, not, ℕ, IfOk, length, replicate};
ghost use Rattle.std.specs.List.{list_any};
ghost use Rattle.alf_ops.specs.declared.history.RunFault.{RunFault as FaultKind};
ghost use Rattle.domain_core.specs.FaultSets.{has_fault, no_faults};
ghost use Rattle.worklist_rules.specs.Pools.{alarm_at};
ghost use Rattle.flow_gathering.specs.Gathering.{found_in, IsSized};
ghost use Rattle.report_soundness.specs.ReportTold.{all_faults};
ghost use Rattle.report_objections.specs.Objecting.{is_alarm, alarm_objection};
ghost use Rattle.report_checks.specs.Marks.{told_one, told_by, first_untold};

use alf_ops::RunFault;
use domain_core::{FaultSet, Outline};
use flow_facts::Fact;
use flow_gathering::Collected;
use report_objections::Objection;
use std::alloc::{AllocError, Global};

// Adds the fault of an alarm to those of its node.
fn tell(sets: &mut [FaultSet], fact: &Fact)
    ensures { sets.new ≡ told_one sets.old fact.now }
{
    if let Fact::Alarm(node, kind) = *fact {
        if (node as usize) < sets.len() {
            sets[node as usize] = sets[node as usize].with(kind);
        }
    }
}

// Those of all lines.
fn tell_all(sets: &mut [FaultSet], facts: &[Fact])
    ensures { sets.new ≡ told_by sets.old facts.now }
{
    let mut rest = facts;
    while let Some((fact, others)) = rest.split_first() {
        tell(sets, fact);
        rest = others;
    }
}

// So many nodes, at none of which a fault is told.
fn no_alarms(alloc: Global, count: u32) -> Result<Vec<FaultSet>, AllocError>
    ensures { IfOk result (λ sets. sets.items ≡ replicate count no_faults) }
{
    vec![in alloc; FaultSet::none(); count as usize]
}

// For each node the faults that alarms of the report tell.
fn alarms_told(alloc: Global, count: u32, facts: &[Fact]) -> Result<Vec<FaultSet>, AllocError>
    ensures long { IfOk result (λ sets. length sets.items ≡ count) }
    ensures told { IfOk result (λ sets. (n : ℕ) (fault : FaultKind) → n < count
        → has_fault (alarm_at sets.items n) fault ≡ list_any (λ f. is_alarm n fault f) facts.now) }
{
    let mut sets = no_alarms(alloc, count)?;
    tell_all(&mut sets, facts);
    Ok(sets)
}

// Whether the fault is in the first set alone.
fn lacks(set: FaultSet, told: FaultSet, fault: RunFault) -> bool
    ensures { result ≡ (has_fault set fault && not (has_fault told fault)) }
{
    set.has(fault) && !told.has(fault)
}

// The first fault of the node that is in the first set alone, if there is one.
fn untold(set: FaultSet, told: FaultSet, node: u32) -> Option<Objection>
    ensures { result ≡ first_untold told set node all_faults }
{
    if lacks(set, told, RunFault::Divide) {
        return Some(Objection::NoAlarm(node, RunFault::Divide));
    }
    if lacks(set, told, RunFault::Uninit) {
        return Some(Objection::NoAlarm(node, RunFault::Uninit));
    }
    if lacks(set, told, RunFault::Mixed) {
        return Some(Objection::NoAlarm(node, RunFault::Mixed));
    }
    if lacks(set, told, RunFault::Bounds) {
        return Some(Objection::NoAlarm(node, RunFault::Bounds));
    }
    if lacks(set, told, RunFault::Dead) {
        return Some(Objection::NoAlarm(node, RunFault::Dead));
    }
    if lacks(set, told, RunFault::Kind) {
        return Some(Objection::NoAlarm(node, RunFault::Kind));
    }
    if lacks(set, told, RunFault::Pointers) {
        return Some(Objection::NoAlarm(node, RunFault::Pointers));
    }
    None
}

// The same of what was told at the node.
fn untold_in(sets: &[FaultSet], found: &Collected, node: u32) -> Option<Objection>
    requires sets { node < length sets.now }
    requires found { node < length found.now.alarms.items }
    ensures { result
        ≡ first_untold (alarm_at sets.now node) (alarm_at (found_in found.now).alarms node) node all_faults }
{
    let set = found.alarms[node as usize];
    let told = sets[node as usize];
    untold(set, told, node)
}

/// The first fault of the first node that has no alarm, if there is one.
///
/// Goes through the lines once, and takes memory for a set of faults a node.
pub fn lacking(
    alloc: Global,
    outline: &Outline,
    facts: &[Fact],
    found: &Collected,
) -> Result<Option<Objection>, AllocError>
    requires sized { IsSized outline.now (found_in found.now) }
    ensures { IfOk result (λ objection. objection ≡ alarm_objection outline.now (found_in found.now) facts.now) }
{
    let sets = alarms_told(alloc, outline.node_count(), facts)?;
    for n in 0..outline.node_count() {
        if let Some(objection) = untold_in(&sets, found, n) {
            return Ok(Some(objection));
        }
    }
    Ok(None)
}
