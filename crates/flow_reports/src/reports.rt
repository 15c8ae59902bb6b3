//! The report.

ghost use Rattle.std.specs.Prelude.{◌≡◌, ◌<◌, ◌≤◌, ◌*◌, ◌^◌, [], length, All, IfOk};
ghost use Rattle.flow_facts.specs.Reports.{reported};
ghost use Rattle.flow_facts.specs.Writable.{IsNodeName, IsWritable};
ghost use Rattle.abstract_exec.specs.Explorations.{IsPool};
ghost use Rattle.report_soundness.specs.ReportTold.{four_recording, books_of, found_of, told_facts, count_bound};
ghost use Rattle.report_soundness.specs.ReportTold.{told_report};
ghost use Rattle.report_soundness.specs.Numbers.{AreOrderly};
ghost use Rattle.report_soundness.specs.Runs.{IsSound};
ghost use Rattle.flow_gathering.specs.Gathering.{found_in, IsSized};

use crate::alarms::tell_alarms;
use crate::bound::bound;
use crate::counts::tell_counts;
use crate::loops::tell_loops;
use crate::pairs::tell_pairs;
use crate::rows::{node_lines, scope_rows};
use crate::totals::{tell_deads, tell_totals};
use abstract_exec::Pool;
use domain_core::{Outline, Stepper};
use flow_facts::{Fact, Report};
use flow_gathering::{Collected, FourRecorders, gathered};
use report_soundness::{closed_explorations_are_sound, told_reports_are_writable};
use std::alloc::{AllocError, Global};

// The facts, in the order of lines.
fn facts_of(alloc: Global, outline: &Outline, found: &Collected) -> Result<Vec<Fact>, AllocError>
    requires sized { IsSized outline.now (found_in found.now) }
    ensures { IfOk result (λ facts. facts.items ≡ told_facts outline.now (found_in found.now)) }
{
    let mut facts = Vec::new(alloc);
    tell_loops(&mut facts, outline, found)?;
    tell_counts(&mut facts, outline, found)?;
    tell_deads(&mut facts, outline, found)?;
    tell_totals(&mut facts, outline, found)?;
    tell_pairs(&mut facts, outline, found)?;
    tell_alarms(&mut facts, outline, found)?;
    Ok(facts)
}

// The report of what was collected.
fn report_of(alloc: Global, outline: &Outline, found: &Collected) -> Result<Report, AllocError>
    requires sized { IsSized outline.now (found_in found.now) }
    requires room { count_bound outline.now (found_in found.now) < 2 ^ 64 }
    ensures { IfOk result (λ report. reported report ≡ told_report outline.now (found_in found.now)) }
{
    let nodes = node_lines(alloc, outline)?;
    let scopes = scope_rows(alloc, outline)?;
    let facts = facts_of(alloc, outline, found)?;
    let count_bound = bound(outline, found);
    Ok(Report {
        form: 2,
        nodes,
        scopes,
        facts,
        count_bound,
        path_bound: None,
        cert: None,
    })
}

/// The report of what the pool has collected, along the outline that it explores.
///
/// It has the form 2, no path bound and no certificate. Names and costs are those of the outline. Takes
/// memory for the report, and time that grows with the square of the nodes and with nodes times scopes.
/// Where nothing was collected of a node that was stepped, no total is told of it: no run is over then.
pub fn report<S: Stepper>(
    alloc: Global,
    outline: &Outline,
    pool: &Pool<S, FourRecorders>,
) -> Result<Report, AllocError>
    requires kept { IsPool S.machine four_recording pool.now }
    requires outline { pool.now.outline ≡ outline.now }
    requires orderly { AreOrderly pool.now.steps (books_of pool.now.book) }
    requires room { length outline.now.nodes * pool.now.steps ≤ 2 ^ 31 }

    // The report is the one that the definition tells.
    ensures told { IfOk result (λ report. reported report ≡ told_report outline.now (found_of pool.now)) }

    // Where no place is left, each run of the stepper's system ends, meets each fact, faults only where an
    // alarm says so, and costs no more than the count bound.
    ensures sound { pool.now.spots ≡ []
        → IfOk result (λ report. IsSound (S.machine pool.now.stepper).system outline.now (reported report)) }

    // Where the nodes have names as reports spell them, the report is one that some text spells: what is
    // printed is read again as the same report.
    ensures writable { All (λ row. IsNodeName row.name.items) outline.now.nodes
        → IfOk result (λ report. IsWritable (reported report)) }
{
    outline.kept();
    outline.costs_fit();
    told_reports_are_writable();
    closed_explorations_are_sound::<S>();
    let found = gathered(alloc, pool, outline.node_count())?;
    let report = report_of(alloc, outline, &found)?;
    Ok(report)
}
