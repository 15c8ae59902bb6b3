//! The objective's line.

ghost use Rattle.std.specs.Prelude.{◌≡◌, ◌<◌, ◌+◌, ◌++◌, ◌^◌, neg_ℤ, pos, IfOk, OnOk, length};
ghost use Rattle.dual_check.specs.Terms.{term_if};
ghost use Rattle.simplex_tableau.specs.FirstTerms.{first_costs};

use crate::line::Line;
use dual_check::Rows;
use std::alloc::{AllocError, Global};
use whole_numbers::Whole;

/// Appends minus the cost, unless it is 0.
fn push_cost(out: &mut Vec<(u32, Whole)>, place: u32, cost: u32) -> Result<(), AllocError>
    ensures { OnOk result (out.new.items ≡ out.old.items ++ term_if place (neg_ℤ (pos cost))) }
{
    let number = 0 - cost as i128;
    if number <= 0 && 0 <= number {
        return Ok(());
    }
    out.push((place, Whole::of(number)))?;
    Ok(())
}

/// The objective, by terms.
#[tactic(auto, using(crate::proofs::RowStepLemmas::costs_next, crate::proofs::RowStepLemmas::costs_end))]
fn cost_terms(alloc: Global, rows: &Rows) -> Result<Vec<(u32, Whole)>, AllocError>
    requires { length rows.now.program.costs + 2 < 2 ^ 32 }
    ensures { IfOk result (λ out. out.items ≡ first_costs rows.now.program.costs) }
{
    let mut out = Vec::new(alloc);
    out.push((1, Whole::of(1)))?;
    for column in 0..rows.column_count() {
        push_cost(&mut out, column + 2, rows.cost(column))?;
    }
    Ok(out)
}

/// The objective's line.
#[tactic(auto, using(crate::proofs::FirstLaws::first_costs_rise))]
pub fn cost_line(alloc: Global, rows: &Rows) -> Result<Line, AllocError>
    requires { length rows.now.program.costs + 2 < 2 ^ 32 }
    ensures { IfOk result (λ line. line ≡ first_costs rows.now.program.costs) }
{
    let terms = cost_terms(alloc, rows)?;
    Ok(Line::of(terms))
}
