//! The check of a report.

ghost use Rattle.std.specs.Prelude.{◌≡◌, ◌<ℤ◌, ◌<◌, ◌≤◌, ◌+◌, ◌^◌, ◌↔◌, IsTrue, pos, length, IfOk, None};
ghost use Rattle.domain_core.specs.Outlines.{shape_of};
ghost use Rattle.domain_core.specs.Machines.{IsAlong};
ghost use Rattle.flow_facts.specs.Reports.{certificate_of, reported};
ghost use Rattle.dual_check.specs.Openings.{system_of};
ghost use Rattle.abstract_exec.specs.Explorations.{IsPool};
ghost use Rattle.report_soundness.specs.ReportTold.{four_recording};
ghost use Rattle.flow_gathering.specs.Gathering.{found_in, IsSized};
ghost use Rattle.report_objections.specs.Shaping.{IsShaped, HasShape};
ghost use Rattle.report_objections.specs.Objecting.{first_line as first_line_of, path_bound_of};
ghost use Rattle.report_objections.specs.Objecting.{verdict_objection as verdict_objection_of};
ghost use Rattle.report_objections.specs.Objecting.{path_objection as path_objection_of};
ghost use Rattle.report_objections.specs.Objecting.{found_objection as found_objection_of};
ghost use Rattle.report_objections.specs.Objecting.{end_objection as end_objection_of};
ghost use Rattle.report_objections.specs.Checks.{IsChecked};
ghost use Rattle.report_objections.specs.Accepted.{IsSoundWithPath, IsScaled};

use crate::alarms::lacking;
use crate::applying::applied;
use crate::bounds::most_cost;
use crate::facts::excluded;
use crate::shaping::is_shaped;
use abstract_exec::Pool;
use domain_core::{Outline, Stepper};
use dual_check::{Duals, Rows, Verdict, rows, verify};
use flow_facts::{Cert, Report};
use flow_gathering::{Collected, FourRecorders, gathered};
use report_objections::{Objection, accepted_reports_are_sound};
use std::alloc::{AllocError, Global};

// What a verdict objects.
fn verdict_objection(verdict: Verdict) -> Option<Objection>
    ensures { result ≡ verdict_objection_of verdict }
{
    match verdict {
        Verdict::Holds(_) => None,
        Verdict::Negative(row) => Some(Objection::Negative(row)),
        Verdict::Wide(row) => Some(Objection::Wide(row)),
        Verdict::Column(column) => Some(Objection::Column(column)),
        Verdict::Bound(value) => Some(Objection::Bound(value)),
    }
}

// The path bound, and without one the greatest number that one may be.
fn path_bound(report: &Report) -> u64
    ensures { result ≡ path_bound_of (reported report.now) }
{
    match report.path_bound {
        None => u64::MAX,
        Some((bound, _)) => bound,
    }
}

// The number of the line of the first fact.
fn first_line(outline: &Outline, report: &Report) -> u64
    requires { IsShaped outline.now (reported report.now) }
    ensures line { result ≡ first_line_of (reported report.now) }
    ensures low { result ≤ 2 ^ 34 }
{
    outline.kept();
    2 + (report.nodes.len() as u64 + report.scopes.len() as u64)
}

// What the multipliers object.
fn path_objection(
    alloc: Global,
    outline: &Outline,
    report: &Report,
    cert: &Cert,
    rows: &Rows,
) -> Result<Option<Objection>, AllocError>
    requires rows { rows.now ≡ system_of outline.now report.now.facts.items }
    requires multipliers { length cert.now.multipliers.items ≡ length rows.now.program.rows }
    requires scaled { pos 0 <ℤ cert.now.scale }
    ensures { IfOk result
        (λ objection. objection ≡ path_objection_of outline.now (reported report.now) (certificate_of cert.now)) }
{
    let multipliers = Vec::from_slice(alloc, &cert.multipliers)?;
    let duals = Duals {
        scale: cert.scale,
        multipliers,
    };
    Ok(verdict_objection(verify(rows, &duals, path_bound(report))))
}

// What speaks against the report of what was collected.
fn found_objection(
    alloc: Global,
    outline: &Outline,
    found: &Collected,
    report: &Report,
    cert: &Cert,
    rows: &Rows,
) -> Result<Option<Objection>, AllocError>
    requires sized { IsSized outline.now (found_in found.now) }
    requires shaped { IsShaped outline.now (reported report.now) }
    requires rows { rows.now ≡ system_of outline.now report.now.facts.items }
    requires multipliers { length cert.now.multipliers.items ≡ length rows.now.program.rows }
    requires scaled { pos 0 <ℤ cert.now.scale }
    ensures { IfOk result
        (λ objection. objection
        ≡ found_objection_of outline.now (found_in found.now) (reported report.now) (certificate_of cert.now)) }
{
    let lacking = lacking(alloc, outline, &report.facts, found)?;
    if let Some(objection) = lacking {
        return Ok(Some(objection));
    }
    if let Some(line) = excluded(outline, found, &report.facts, first_line(outline, report)) {
        return Ok(Some(Objection::NoFact(line)));
    }
    if u128::from(report.count_bound) < most_cost(outline, &report.facts) {
        return Ok(Some(Objection::NoCountBound));
    }
    let objection = path_objection(alloc, outline, report, cert, rows)?;
    Ok(objection)
}

// What speaks against the report, once its events were applied.
fn end_objection<S: Stepper>(
    alloc: Global,
    outline: &Outline,
    pool: &Pool<S, FourRecorders>,
    report: &Report,
    cert: &Cert,
    rows: &Rows,
) -> Result<Option<Objection>, AllocError>
    requires kept { IsPool S.machine four_recording pool.now }
    requires outline { pool.now.outline ≡ outline.now }
    requires shaped { IsShaped outline.now (reported report.now) }
    requires rows { rows.now ≡ system_of outline.now report.now.facts.items }
    requires multipliers { length cert.now.multipliers.items ≡ length rows.now.program.rows }
    requires scaled { pos 0 <ℤ cert.now.scale }
    ensures { IfOk result
        (λ objection. objection ≡ end_objection_of pool.now (reported report.now) (certificate_of cert.now)) }
{
    if pool.places() > 0 {
        let node = pool.node_at(0);
        return Ok(Some(Objection::NoEnd(outline.node(node).scope)));
    }
    let found = gathered(alloc, pool, outline.node_count())?;
    let objection = found_objection(alloc, outline, &found, report, cert, rows)?;
    Ok(objection)
}

// Whether the pool counts so many events.
fn are_few(events: usize) -> bool
    ensures { IsTrue result ↔ events ≤ 4294967290 }
{
    events <= 4294967290
}

// The same, from the events on.
fn applied_objection<S: Stepper>(
    alloc: Global,
    stepper: &S,
    outline: &Outline,
    report: &Report,
    cert: &Cert,
    rows: &Rows,
) -> Result<Option<Objection>, AllocError>
    requires along { IsAlong S.State S.Concrete (shape_of outline.now) (S.machine stepper.now) }
    requires cert { (reported report.now).cert ≡ Some (certificate_of cert.now) }
    requires shape { HasShape outline.now (reported report.now) (certificate_of cert.now) }
    requires rows { rows.now ≡ system_of outline.now report.now.facts.items }
    requires scaled { pos 0 <ℤ cert.now.scale }
    ensures { IfOk result
        (λ objection. IsChecked S.machine S.State.order stepper.now outline.now (reported report.now) objection) }
{
    if !are_few(cert.events.len()) {
        return Err(AllocError);
    }
    let mut pool: Pool<S, FourRecorders> = Pool::start(alloc, stepper, outline)?;
    if let Some(k) = applied(alloc, &mut pool, &cert.events)? {
        return Ok(Some(Objection::NoEvent(k)));
    }
    let objection = end_objection(alloc, outline, &pool, report, cert, rows)?;
    Ok(objection)
}

/// The first thing that speaks against the report, by the events and the multipliers of its certificate, whatever made
/// them.
///
/// Takes time by the events and by what steps take, then by the facts times the nodes and by the rows; and memory for
/// the places that are left, then for the rows. Want of memory is the only other answer; with no allocation refused it
/// is given for a certificate of more than 4,294,967,290 events, and for no other.
pub fn objection_to<S: Stepper>(
    alloc: Global,
    stepper: &S,
    outline: &Outline,
    report: &Report,
) -> Result<Option<Objection>, AllocError>
    requires along { IsAlong S.State S.Concrete (shape_of outline.now) (S.machine stepper.now) }
    requires scaled { IsScaled (reported report.now) }

    // The answer is the first of the objections that holds.
    ensures answer { IfOk result
        (λ objection. IsChecked S.machine S.State.order stepper.now outline.now (reported report.now) objection) }

    // Where nothing speaks against it, each run of the stepper's system ends, meets each fact, faults only where an
    // alarm says so, and costs no more than each bound.
    ensures sound { IfOk result
        (λ objection. objection ≡ None
        → IsSoundWithPath (S.machine stepper.now).system outline.now (reported report.now)) }
{
    stepper.kept();
    outline.kept();
    accepted_reports_are_sound::<S>();
    let Some(cert) = &report.cert else {
        return Ok(Some(Objection::NoCertificate));
    };
    let shaped = is_shaped(alloc, outline, report)?;
    if !shaped {
        return Ok(Some(Objection::NoShape));
    }
    let rows = rows(alloc, outline, report)?;
    if cert.multipliers.len() != rows.row_count() as usize {
        return Ok(Some(Objection::NoShape));
    }
    let objection = applied_objection(alloc, stepper, outline, report, cert, &rows)?;
    Ok(objection)
}
