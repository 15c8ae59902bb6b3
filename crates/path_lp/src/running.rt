//! The run of the rule.

ghost use Rattle.std.specs.Prelude.{◌≡◌, ◌*ℤ◌, ◌≤ℤ◌, None, IfOk};
ghost use Rattle.ipet_rows.specs.Duals.{IsDual, dual_sum};
ghost use Rattle.simplex_rules.specs.PivotRule.{leaving, at_limit, run as run_of};
ghost use Rattle.simplex_rules.specs.OpeningPlaces.{OpensRows, ended};
ghost use Rattle.path_lp.specs.Handing.{IsHanded};
ghost use Rattle.path_lp.specs.Stepping.{Stands};
ghost use Rattle.path_lp.specs.Solving.{IsSolved, HoldFrom, OnLeast, IsOptimal, opening_worth};

use crate::handing::handed;
use crate::reading::point;
use crate::solved::{SolveEnd, Solved};
use crate::stepping::{Standing, next};
use dual_check::{Duals, Rows};
use simplex_rules::{handed_duals_hold, opening_fits, points_of_rule, rule_answers};
use simplex_tableau::{SparseTableau, started};
use std::alloc::{AllocError, Global};

/// No right side is negative: the point is read off.
fn least(
    alloc: Global,
    rows: &Rows,
    tableau: &SparseTableau,
    duals: Duals,
) -> Result<Solved, AllocError>
    requires stands { Stands rows.now.program tableau.now }
    requires handed { IsHanded rows.now.program tableau.now.tableau duals.scale duals.multipliers.items }
    requires none { leaving tableau.now.tableau ≡ None }
    ensures { IfOk result
        (λ s. IsSolved rows.now.program (at_limit tableau.now.tableau None) s.duals.scale s.duals.multipliers.items
        s.end) }
{
    let fractions = point(alloc, rows, tableau)?;
    Ok(Solved {
        duals,
        end: SolveEnd::Least(fractions),
    })
}

/// All pivots were made.
fn limited(
    alloc: Global,
    rows: &Rows,
    tableau: &SparseTableau,
    duals: Duals,
) -> Result<Solved, AllocError>
    requires stands { Stands rows.now.program tableau.now }
    requires handed { IsHanded rows.now.program tableau.now.tableau duals.scale duals.multipliers.items }
    ensures { IfOk result
        (λ s. IsSolved rows.now.program (at_limit tableau.now.tableau (leaving tableau.now.tableau)) s.duals.scale
        s.duals.multipliers.items s.end) }
{
    match tableau.leaving() {
        None => {
            let solved = least(alloc, rows, tableau, duals)?;
            Ok(solved)
        }
        Some(_) => Ok(Solved {
            duals,
            end: SolveEnd::Pivots,
        }),
    }
}

/// The run from a tableau.
fn run(alloc: Global, rows: &Rows, pivots: u32, start: SparseTableau) -> Result<Solved, AllocError>
    requires { Stands rows.now.program start }
    ensures { IfOk result
        (λ s. IsSolved rows.now.program (run_of rows.now.program pivots 0 start.tableau) s.duals.scale
        s.duals.multipliers.items s.end) }
{
    let mut duals = handed(alloc, rows, &start)?;
    let mut tableau = start;
    for made in 0..pivots {
        let Some(row) = tableau.leaving() else {
            let solved = least(alloc, rows, &tableau, duals)?;
            return Ok(solved);
        };
        let Some(further) = next(alloc, rows, tableau, row)? else {
            return Ok(Solved {
                duals,
                end: SolveEnd::Wide(made + 1),
            });
        };
        let Standing {
            tableau: more,
            duals: others,
        } = further;
        tableau = more;
        duals = others;
    }
    let solved = limited(alloc, rows, &tableau, duals)?;
    Ok(solved)
}

/// Solves the program by so many pivots at most, after the opening: the multipliers, and how it ended.
///
/// Memory is said to be wanting with no allocation refused exactly where 32 bits do not number the tableau's places.
pub fn solve(alloc: Global, rows: &Rows, pivots: u32) -> Result<Solved, AllocError>
    requires { OpensRows rows.now.program rows.now.openings }
    ensures rule { IfOk result
        (λ s. IsSolved rows.now.program (ended rows.now.program rows.now.openings pivots) s.duals.scale
        s.duals.multipliers.items s.end) }
    ensures dual { IfOk result (λ s. IsDual rows.now.program s.duals.scale s.duals.multipliers.items) }
    ensures holds { IfOk result (λ s. HoldFrom rows.now.program s.duals.scale s.duals.multipliers.items) }
    ensures most { IfOk result
        (λ s. dual_sum rows.now.program s.duals.multipliers.items ≤ℤ
        (opening_worth rows.now.program rows.now.openings *ℤ s.duals.scale)) }
    ensures least { IfOk result
        (λ s. OnLeast s.end (λ point. IsOptimal rows.now.program s.duals.scale s.duals.multipliers.items point)) }
{
    rows.kept();
    rule_answers();
    points_of_rule();
    opening_fits();
    handed_duals_hold();
    let start = started(alloc, rows)?;
    let solved = run(alloc, rows, pivots, start)?;
    Ok(solved)
}
