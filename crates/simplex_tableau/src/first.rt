//! The first tableau.

ghost use Rattle.std.specs.Prelude.{◌≡◌, ◌<◌, ◌^◌, IfOk};
ghost use Rattle.simplex_rules.specs.Tableaus.{width_of, slacks_from};
ghost use Rattle.dual_check.specs.Small.{IsSmall};
ghost use Rattle.simplex_tableau.specs.FirstTerms.{first_rows as first_rows_of};
ghost use Rattle.simplex_tableau.specs.Started.{IsFirst};

use crate::costs::cost_line;
use crate::lines::push_row;
use crate::places::{first_slack, width};
use crate::row::HeldLine;
use crate::tableau::SparseTableau;
use dual_check::Rows;
use std::alloc::{AllocError, Global};

/// The rows' lines, with slacks from the one on.
#[tactic(auto, using(crate::proofs::RowStepLemmas::rows_next, crate::specs::RowStepLaws::width_next, crate::specs::RowStepLaws::slack_below, crate::proofs::RowStepLemmas::rows_end, crate::specs::RowStepLaws::next_past))]
fn first_rows(alloc: Global, rows: &Rows, slacks: u32) -> Result<Vec<HeldLine>, AllocError>
    requires small { IsSmall rows.now.program }
    requires slacks { slacks ≡ slacks_from rows.now.program }
    requires room { width_of rows.now.program < 2 ^ 32 }
    ensures { IfOk result (λ out. out.items ≡ first_rows_of rows.now.program.rows (slacks_from rows.now.program)) }
{
    let mut out = Vec::new(alloc);
    let mut slack = slacks;
    for row in 0..rows.row_count() {
        slack = push_row(alloc, rows, row, slack, &mut out)?;
    }
    Ok(out)
}

/// The tableau before the opening: each row is a line with its slack, an equation two, and the objective has
/// minus the costs. Exactly where 32 bits do not number its places, memory is said to be wanting with no allocation
/// refused.
#[tactic(auto, using(crate::proofs::FirstLaws::first_kept, crate::proofs::FirstLaws::costs_kept, crate::proofs::FirstLaws::first_is, crate::proofs::RowStepLemmas::columns_below))]
pub fn first_tableau(alloc: Global, rows: &Rows) -> Result<SparseTableau, AllocError>
    requires { IsSmall rows.now.program }
    ensures { IfOk result (λ tableau. IsFirst rows.now.program tableau) }
{
    rows.kept();
    let Some(slacks) = first_slack(rows) else {
        return Err(AllocError);
    };
    let Some(places) = width(rows) else {
        return Err(AllocError);
    };
    let lines = first_rows(alloc, rows, slacks)?;
    let costs = cost_line(alloc, rows)?;
    Ok(SparseTableau::of(places, lines, costs))
}
