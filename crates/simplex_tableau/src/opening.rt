//! The opening.

ghost use Rattle.std.specs.Prelude.{◌≡◌, ◌<◌, ◌+◌, ◌^◌, IfOk, length};
ghost use Rattle.dual_check.specs.Small.{IsSmall};
ghost use Rattle.simplex_rules.specs.OpeningPlaces.{OpensRows, line_place, next_line};
ghost use Rattle.simplex_tableau.specs.Started.{IsOpenedSo, IsStarted};

use crate::first::first_tableau;
use crate::tableau::SparseTableau;
use dual_check::Rows;
use std::alloc::{AllocError, Global};

/// The line after those of a row.
fn line_behind(equation: bool, line: usize) -> usize
    requires { line < 2 ^ 34 }
    ensures { result ≡ next_line equation line }
{
    if equation { line + 2 } else { line + 1 }
}

/// The tableau's line of a row.
#[tactic(auto, using(crate::proofs::OpeningSteps::line_first, crate::proofs::OpeningSteps::line_next, crate::proofs::OpeningSteps::line_most))]
fn line_of(rows: &Rows, row: u32) -> usize
    requires { row < length rows.now.program.rows }
    ensures { result ≡ line_place rows.now.program.rows row }
{
    let mut line: usize = 0;
    for other in 0..row {
        line = line_behind(rows.equation(other), line);
    }
    line
}

/// One more pivot of the opening.
#[tactic(auto, using(crate::proofs::OpeningSteps::ready_at, crate::proofs::OpeningSteps::row_there, crate::proofs::OpeningSteps::column_there, crate::proofs::OpeningSteps::opened_more))]
fn open_next(
    alloc: Global,
    rows: &Rows,
    i: u32,
    tableau: SparseTableau,
) -> Result<SparseTableau, AllocError>
    requires i { i < length rows.now.openings }
    requires small { IsSmall rows.now.program }
    requires opens { OpensRows rows.now.program rows.now.openings }
    requires so { IsOpenedSo rows.now.program rows.now.openings i tableau }
    ensures { IfOk result (λ out. IsOpenedSo rows.now.program rows.now.openings (i + 1) out) }
{
    rows.kept();
    let (row, column) = rows.opening(i);
    let line = line_of(rows, row);
    // A program has fewer than 2^32 - 1 columns.
    let place = column + 2;
    match tableau.opened(alloc, line, place)? {
        None => unreachable!(),
        Some(out) => Ok(out),
    }
}

/// The tableau after the opening: for each opening in order its row is pivoted on its column. Exactly where 32 bits
/// do not number the places, memory is said to be wanting with no allocation refused.
#[tactic(auto, using(crate::proofs::OpeningSteps::first_opened, crate::proofs::OpeningSteps::all_opened))]
pub fn started(alloc: Global, rows: &Rows) -> Result<SparseTableau, AllocError>
    requires small { IsSmall rows.now.program }
    requires opens { OpensRows rows.now.program rows.now.openings }
    ensures { IfOk result (λ tableau. IsStarted rows.now.program rows.now.openings tableau) }
{
    let mut tableau = first_tableau(alloc, rows)?;
    for i in 0..rows.opening_count() {
        tableau = open_next(alloc, rows, i, tableau)?;
    }
    Ok(tableau)
}
