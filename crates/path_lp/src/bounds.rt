//! The path bound.

ghost use Rattle.std.specs.Prelude.{◌≡◌, ◌≤◌, ◌<◌, ◌^◌, ◌≤ℤ◌, ◌<ℤ◌, pos, length, All, IfOk};
ghost use Rattle.domain_core.specs.Outlines.{shape_of};
ghost use Rattle.flow_facts.specs.Facts.{IsAbout};
ghost use Rattle.flow_facts.specs.declared.report.BoundWord.TheVariants.{Least};
ghost use Rattle.ipet_rows.specs.Duals.{dual_sum};
ghost use Rattle.ipet_rows.specs.Verdicts.{floor_of};
ghost use Rattle.ipet_rows.specs.Bounds.{BoundsAll};
ghost use Rattle.dual_check.specs.Openings.{system_of};
ghost use Rattle.dual_check.specs.Small.{IsSmall};
ghost use Rattle.simplex_rules.specs.OutlineOpenings.{AreLimited};
ghost use Rattle.path_lp.specs.Solving.{HoldFrom};
ghost use Rattle.path_lp.specs.Bounding.{word_at, told_path_bound, told_duals, opening_sum, AreHeld, IsAbove};
ghost use Rattle.path_lp.specs.Bounding.{IsGreatest};

use crate::running::solve;
use crate::solved::{PathBound, SolveEnd};
use domain_core::Outline;
use dual_check::{Duals, Rows, Verdict, rows, verdicts_bound_each_run, verify};
use flow_facts::{BoundWord, Report};
use simplex_rules::outlines_open;
use std::alloc::{AllocError, Global};

/// The word of an end.
fn word(end: &SolveEnd) -> BoundWord
    ensures { result ≡ word_at end.now }
{
    match end {
        SolveEnd::Least(_) => BoundWord::Least,
        SolveEnd::Wide(_) => BoundWord::Stopped,
        SolveEnd::Pivots => BoundWord::Stopped,
    }
}

/// What the test of the multipliers answers, where it answers that they hold.
fn value(rows: &Rows, duals: &Duals) -> u64
    requires multipliers { length duals.now.multipliers.items ≡ length rows.now.program.rows }
    requires scale { pos 0 <ℤ duals.now.scale }
    requires holds { HoldFrom rows.now.program duals.now.scale duals.now.multipliers.items }
    requires room { floor_of (dual_sum rows.now.program duals.now.multipliers.items) duals.now.scale < 2 ^ 64 }
    ensures told { result ≡ floor_of (dual_sum rows.now.program duals.now.multipliers.items) duals.now.scale }
    ensures bounds { BoundsAll rows.now.program result result }
{
    match verify(rows, duals, u64::MAX) {
        Verdict::Holds(value) => value,
        _ => unreachable!(),
    }
}

/// The path bound of the rows that an outline and a report's facts make, after so many pivots at most, its word,
/// and the multipliers that show it. The costs are those of the outline's nodes. The report's other parts are not
/// looked at.
///
/// Want of memory is the only other answer; with no allocation refused it is given exactly where 32 bits do not number
/// the rows, the columns or the places of the tableau.
pub fn path_bound(
    alloc: Global,
    outline: &Outline,
    report: &Report,
    pivots: u32,
) -> Result<PathBound, AllocError>
    requires about { All (λ f. IsAbout (shape_of outline.now) f) report.now.facts.items }
    requires limited { AreLimited (length outline.now.nodes) report.now.facts.items }
    requires room { opening_sum outline.now report.now.facts.items <ℤ pos (2 ^ 64) }

    // The bound is that of the rule's multipliers, and the word that of its run's end.
    ensures told { IfOk result (λ b. (b.value, b.word) ≡ told_path_bound outline.now report.now.facts.items pivots) }

    // The multipliers are those that the rule hands out at the end of its run.
    ensures duals { IfOk result
        (λ b. (b.duals.scale, b.duals.multipliers.items) ≡ told_duals outline.now report.now.facts.items pivots) }

    // There is one for each row, and their test answers that they hold.
    ensures held { IfOk result
        (λ b. AreHeld (system_of outline.now report.now.facts.items).program b.duals.scale b.duals.multipliers.items) }

    // No point that meets the rows is worth as much as one more, and no run that meets the facts costs more.
    ensures holds { IfOk result (λ b. IsAbove outline.now report.now.facts.items b.value) }

    // With `Least` it is the greatest worth of a point that meets the rows, rounded down.
    ensures least { IfOk result
        (λ b. b.word ≡ Least → IsGreatest (system_of outline.now report.now.facts.items).program b.value) }

    // It is at most the sum over the openings.
    ensures most { IfOk result (λ b. pos b.value ≤ℤ opening_sum outline.now report.now.facts.items) }

    // Costs, coefficients and right sides have about 32 bits: none is too wide for the solver.
    ensures small { IfOk result (λ b. IsSmall (system_of outline.now report.now.facts.items).program) }
{
    outline.kept();
    outlines_open();
    verdicts_bound_each_run();
    let rows = rows(alloc, outline, report)?;
    rows.kept();
    let solved = solve(alloc, &rows, pivots)?;
    let bound = value(&rows, &solved.duals);
    Ok(PathBound {
        value: bound,
        word: word(&solved.end),
        duals: solved.duals,
    })
}
