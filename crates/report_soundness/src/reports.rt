//! The report.

ghost use Rattle.std.specs.Prelude.{◌≡◌, IfOk};
ghost use Rattle.dual_check.specs.Openings.{system_of};
ghost use Rattle.flow_facts.specs.Reports.{reported};
ghost use Rattle.flow_facts.specs.Writable.{IsWritable};
ghost use Rattle.path_lp.specs.Bounding.{AreHeld, told_duals};
ghost use Rattle.report_soundness.specs.ReportTold.{Found, told_report};
ghost use Rattle.report_soundness.specs.Bounded.{IsTold, with_path_bound, bounded, told_bounded_report, IsPathBounded};
ghost use Rattle.report_soundness.specs.Bounded.{IsWithinCount, IsLeastOf};

use domain_core::Outline;
use dual_check::Duals;
use flow_facts::{BoundWord, Report};
use path_lp::path_bound;
use std::alloc::{AllocError, Global};

/// A report with its path bound, and the multipliers that show it.
#[derive(Drop)]
pub struct BoundedReport {
    /// The report.
    pub report: Report,
    /// A scale, and a multiplier for each row of the report.
    pub duals: Duals,
}

// The count bound.
fn count_bound(report: &Report) -> u64
    ensures { result ≡ report.now.count_bound }
{
    report.count_bound
}

// The report with this path bound.
fn with_bound(report: Report, bound: (u64, BoundWord)) -> Report
    ensures { reported result ≡ with_path_bound (reported report) bound }
{
    let mut report = report;
    report.path_bound = Some(bound);
    report
}

/// The report with the path bound of its facts, after so many pivots at most, and the multipliers that show it. The
/// costs are those of the outline's nodes.
///
/// It asks that the report is a told one, along the outline, and that of each node that was stepped some total was
/// collected. Want of memory is the only other answer.
pub fn bounded_report(
    alloc: Global,
    outline: &Outline,
    report: Report,
    pivots: u32,
) -> Result<BoundedReport, AllocError>
    requires told { IsTold outline.now (reported report) }

    // The path bound is that of the facts, and all else stays.
    ensures told { IfOk result (λ r. reported r.report ≡ bounded outline.now (reported report) pivots) }

    // So it is that of what was collected.
    ensures collected { (found : Found) → reported report ≡ told_report outline.now found
        → IfOk result (λ r. reported r.report ≡ told_bounded_report outline.now found pivots) }

    // No point that meets the rows of the report is worth as much as one more, and no run that meets its facts costs
    // more.
    ensures holds { IfOk result (λ r. IsPathBounded outline.now (reported r.report)) }

    // Where some text spells the given report, some text spells this one.
    ensures writable { IsWritable (reported report) → IfOk result (λ r. IsWritable (reported r.report)) }

    // It is at most the count bound.
    ensures most { IfOk result (λ r. IsWithinCount (reported r.report)) }

    // With `Least` it is the greatest worth of a point that meets the rows of the report, rounded down.
    ensures least { IfOk result (λ r. IsLeastOf outline.now (reported r.report)) }

    // The multipliers are those that the rule hands out at the end of its run.
    ensures duals { IfOk result
        (λ r. (r.duals.scale, r.duals.multipliers.items) ≡ told_duals outline.now (reported report).facts pivots) }

    // There is one for each row of the report, and their test answers that they hold.
    ensures held { IfOk result
        (λ r. AreHeld (system_of outline.now (reported report).facts).program r.duals.scale r.duals.multipliers.items) }
{
    let _ = count_bound(&report);
    let bound = path_bound(alloc, outline, &report, pivots)?;
    Ok(BoundedReport {
        report: with_bound(report, (bound.value, bound.word)),
        duals: bound.duals,
    })
}
