//! One pivot of the rule.

ghost use Rattle.std.specs.Prelude.{◌≡◌, ◌<◌, ◌-◌, None, Some, IfOk, MatchOption, length};
ghost use Rattle.simplex_rules.specs.PivotRule.{is_wide as is_wide_of};
ghost use Rattle.simplex_rules.specs.Tableaus.{held_at};
ghost use Rattle.simplex_tableau.specs.Choosing.{entering_answer};
ghost use Rattle.path_lp.specs.Stepping.{Stands, stepped, IsNext};

use crate::handing::handed;
use dual_check::{Duals, Rows, Verdict, verify};
use simplex_tableau::SparseTableau;
use std::alloc::{AllocError, Global};

/// A tableau, and what it hands out.
#[derive(Drop)]
pub struct Standing {
    /// The tableau.
    pub tableau: SparseTableau,
    /// What it hands out.
    pub duals: Duals,
}

/// The verdict is that a number is wide.
fn is_wide(verdict: Verdict) -> bool
    ensures { result ≡ is_wide_of verdict }
{
    match verdict {
        Verdict::Holds(_) => false,
        Verdict::Negative(_) => false,
        Verdict::Wide(_) => true,
        Verdict::Column(_) => false,
        Verdict::Bound(_) => false,
    }
}

/// The tableau after the pivot of the row on the place that enters, with what it hands out. `None` exactly where
/// some number is wide.
#[tactic(auto, using(crate::proofs::StepLaws::place_below, crate::proofs::StepLaws::sound_can, crate::proofs::StepLaws::pivot_too_wide, crate::proofs::StepLaws::handed_count, crate::proofs::StepLaws::handed_too_wide))]
fn pivot_on(
    alloc: Global,
    rows: &Rows,
    tableau: SparseTableau,
    row: usize,
    place: u32,
) -> Result<Option<Standing>, AllocError>
    requires stands { Stands rows.now.program tableau }
    requires row { row < length tableau.tableau.rows }
    requires entering { entering_answer (held_at tableau.tableau.rows row).line tableau.tableau.objective
        (tableau.width - 2) ≡ Some (Some place) }
    ensures { IfOk result
        (λ answer. MatchOption answer (stepped rows.now.program row tableau.tableau ≡ None)
        (λ s. IsNext rows.now.program row tableau.tableau s.tableau s.duals.scale s.duals.multipliers.items)) }
{
    let Some(more) = tableau.pivoted(alloc, row, place)? else {
        return Ok(None);
    };
    let duals = handed(alloc, rows, &more)?;
    if is_wide(verify(rows, &duals, 0)) {
        return Ok(None);
    }
    Ok(Some(Standing {
        tableau: more,
        duals,
    }))
}

/// The tableau after the pivot of the row, with what it hands out. `None` exactly where some number of the
/// pivot is wide, or one in the test of what it hands out.
#[tactic(auto, using(crate::proofs::StepLaws::choice_too_wide, crate::proofs::StepLaws::nothing_enters))]
pub fn next(
    alloc: Global,
    rows: &Rows,
    tableau: SparseTableau,
    row: usize,
) -> Result<Option<Standing>, AllocError>
    requires stands { Stands rows.now.program tableau }
    requires row { row < length tableau.tableau.rows }
    ensures { IfOk result
        (λ answer. MatchOption answer (stepped rows.now.program row tableau.tableau ≡ None)
        (λ s. IsNext rows.now.program row tableau.tableau s.tableau s.duals.scale s.duals.multipliers.items)) }
{
    match tableau.entering(row) {
        None => Ok(None),
        Some(None) => Ok(None),
        Some(Some(place)) => {
            let answer = pivot_on(alloc, rows, tableau, row, place)?;
            Ok(answer)
        }
    }
}
