//! The events of a certificate.

ghost use Rattle.std.specs.Prelude.{◌≡◌, ◌<◌, ◌+◌, ◌-◌, ◌^◌, length, OnOk, IfOk, IfSome, IfNone};
ghost use Rattle.abstract_exec.specs.Explorations.{IsPool};
ghost use Rattle.report_soundness.specs.ReportTold.{four_order, four_recording};
ghost use Rattle.worklist_rules.specs.Events.{HappenAll};
ghost use Rattle.report_checks.specs.Applied.{IsRefusedAt};

use abstract_exec::{ExecFault, Pool};
use domain_core::{Event, Stepper};
use flow_gathering::FourRecorders;
use std::alloc::{AllocError, Global};

/// Applies the events in their order, up to the first that is not allowed, and answers its number.
pub fn applied<S: Stepper>(
    alloc: Global,
    pool: &mut Pool<'_, S, FourRecorders>,
    events: &[Event],
) -> Result<Option<u32>, AllocError>
    requires kept { IsPool S.machine four_recording pool.old }
    requires room { pool.old.steps + length events.now < 2 ^ 32 - 2 }
    ensures all { IfOk result
        (λ refused. IfNone refused
        (HappenAll S.machine S.State.order four_order four_recording pool.old events.now pool.new)) }
    ensures some { IfOk result
        (λ refused. IfSome refused (λ k. IsRefusedAt S.machine S.State.order pool.old events.now k pool.new)) }
    ensures kept { OnOk result (IsPool S.machine four_recording pool.new) }
{
    for k in 0..events.len() {
        match pool.apply(alloc, events[k]) {
            Ok(()) => {}
            Err(ExecFault::BadEvent) => return Ok(Some(k as u32)),
            Err(ExecFault::Memory) => return Err(AllocError),
        }
    }
    Ok(None)
}
