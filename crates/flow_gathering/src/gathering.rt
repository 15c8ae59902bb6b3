//! What a pool has collected.

ghost use Rattle.std.specs.Prelude.{◌≡◌, length, IfOk};
ghost use Rattle.abstract_exec.specs.Explorations.{IsPool};
ghost use Rattle.report_soundness.specs.ReportTold.{four_recording, found_of};
ghost use Rattle.flow_gathering.specs.Gathering.{found_in, IsSized};

use crate::collected::{Collected, FourRecorders};
use abstract_exec::Pool;
use domain_core::{FaultSet, Stepper};
use std::alloc::{AllocError, Global};

// The faults told at each node.
fn alarms_of<S: Stepper>(
    alloc: Global,
    pool: &Pool<S, FourRecorders>,
    count: u32,
) -> Result<Vec<FaultSet>, AllocError>
    requires kept { IsPool S.machine four_recording pool.now }
    requires all { count ≡ length pool.now.outline.nodes }
    ensures { IfOk result (λ alarms. alarms.items ≡ pool.now.alarms) }
{
    let mut alarms = Vec::new(alloc);
    for n in 0..count {
        alarms.push(pool.alarm(n))?;
    }
    Ok(alarms)
}

// Whether each node was stepped.
fn stepped_of<S: Stepper>(
    alloc: Global,
    pool: &Pool<S, FourRecorders>,
    count: u32,
) -> Result<Vec<bool>, AllocError>
    requires kept { IsPool S.machine four_recording pool.now }
    requires all { count ≡ length pool.now.outline.nodes }
    ensures { IfOk result (λ stepped. stepped.items ≡ pool.now.stepped) }
{
    let mut stepped = Vec::new(alloc);
    for n in 0..count {
        stepped.push(pool.stepped(n))?;
    }
    Ok(stepped)
}

// What the pool has collected.
fn collected<'a, S: Stepper>(
    alloc: Global,
    pool: &'a Pool<S, FourRecorders>,
    count: u32,
) -> Result<Collected<'a>, AllocError>
    requires kept { IsPool S.machine four_recording pool.now }
    requires all { count ≡ length pool.now.outline.nodes }
    ensures { IfOk result (λ found. found_in found ≡ found_of pool.now) }
{
    let alarms = alarms_of(alloc, pool, count)?;
    let stepped = stepped_of(alloc, pool, count)?;
    Ok(Collected {
        books: pool.book(),
        alarms,
        stepped,
    })
}

/// What the pool, of so many nodes, has collected: its books, and for each node the faults told there and whether it
/// was stepped.
///
/// Takes memory for two entries a node.
pub fn gathered<'a, S: Stepper>(
    alloc: Global,
    pool: &'a Pool<S, FourRecorders>,
    count: u32,
) -> Result<Collected<'a>, AllocError>
    requires kept { IsPool S.machine four_recording pool.now }
    requires all { count ≡ length pool.now.outline.nodes }
    ensures found { IfOk result (λ found. found_in found ≡ found_of pool.now) }
    ensures sized { IfOk result (λ found. IsSized pool.now.outline (found_in found)) }
{
    let found = collected(alloc, pool, count)?;
    Ok(found)
}
