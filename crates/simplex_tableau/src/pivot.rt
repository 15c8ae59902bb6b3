//! The pivot.

ghost use Rattle.std.specs.Prelude.{◌≡◌, ◌<◌, ℕ, pos, ◌<ℤ◌, ◌≤ℤ◌, true, IfOk, MatchOption, length};
ghost use Rattle.ipet_rows.specs.Sums.{coefficient};
ghost use Rattle.ipet_rows.specs.Firsts.{entry};
ghost use Rattle.simplex_rules.specs.Lines.{spread};
ghost use Rattle.simplex_rules.specs.Tableaus.{held_at, number_at, basic_at};
ghost use Rattle.simplex_tableau.specs.Sparse.{IsKept};
ghost use Rattle.simplex_tableau.specs.Stepped.{CanPivot, exchange_wide, step_wide, IsExchanged, IsPivoted, IsOpened};

use crate::line::Line;
use crate::row::{HeldLine, free_row};
use crate::rows::exchanged_rows;
use crate::tableau::SparseTableau;
use std::alloc::{AllocError, Global};

/// All but the row freed of the place by the line, which then stands in the row. `None` exactly where a number
/// on the way is wide.
#[tactic(auto, using(crate::proofs::Pivots::cost_freeable, crate::proofs::Pivots::row_below, crate::proofs::Pivots::rows_freeable, crate::proofs::Pivots::rows_are_wide, crate::proofs::Pivots::cost_is_wide, crate::proofs::Pivots::exchanged_is, crate::proofs::Pivots::rows_kept, crate::proofs::Pivots::cost_stays_kept))]
fn exchanged(
    alloc: Global,
    tableau: SparseTableau,
    row: usize,
    place: u32,
    by: Line,
) -> Result<Option<SparseTableau>, AllocError>
    requires row { row < length tableau.tableau.rows }
    requires kept { IsKept tableau.width by }
    requires place { pos 0 <ℤ coefficient by place }
    requires own { (k : ℕ) → k < length tableau.tableau.rows → (k ≡ row → ⊥)
        → pos 1 ≤ℤ number_at tableau.tableau k (basic_at tableau.tableau k) }
    requires apart { (k : ℕ) → k < length tableau.tableau.rows → (k ≡ row → ⊥)
        → coefficient by (basic_at tableau.tableau k) ≡ pos 0 }
    requires flat { coefficient by 1 ≡ pos 0 }
    requires scale { pos 1 ≤ℤ entry tableau.tableau.objective 1 }
    ensures { IfOk result
        (λ answer. MatchOption answer (exchange_wide row place (spread tableau.width 0 by) tableau.tableau ≡ true)
        (λ out. IsExchanged row place (spread tableau.width 0 by) tableau out)) }
{
    let SparseTableau {
        width,
        rows,
        objective,
    } = tableau;
    let mut cost = HeldLine::of(1, objective);
    if !free_row(alloc, &mut cost, place, &by)? {
        return Ok(None);
    }
    let Some(rows) = exchanged_rows(alloc, rows, row, place, by)? else {
        return Ok(None);
    };
    Ok(Some(SparseTableau {
        width,
        rows,
        objective: cost.into_line(),
    }))
}

/// A copy of a line.
fn copied(alloc: Global, line: &Line) -> Result<Line, AllocError>
    ensures { IfOk result (λ out. out ≡ line.now) }
{
    let terms = Vec::from_slice(alloc, line.terms())?;
    Ok(Line::of(terms))
}

impl SparseTableau {
    /// The pivot of the row, turned, on the place. `None` exactly where a number on the way is wide.
    #[tactic(auto, using(crate::proofs::Pivots::turned_kept, crate::proofs::Pivots::turned_above, crate::proofs::Pivots::turned_none, crate::proofs::Pivots::line_too_wide, crate::proofs::Pivots::rest_too_wide, crate::proofs::Pivots::pivot_is))]
    pub fn pivoted(
        self,
        alloc: Global,
        row: usize,
        place: u32,
    ) -> Result<Option<SparseTableau>, AllocError>
        requires row { row < length self.tableau.rows }
        requires place { number_at self.tableau row place <ℤ pos 0 }
        requires can { CanPivot self.tableau row }
        ensures { IfOk result
            (λ answer. MatchOption answer (step_wide row place self.tableau ≡ true)
            (λ out. IsPivoted row place self out)) }
    {
        let Some(by) = self.held(row).line().turned(alloc)? else {
            return Ok(None);
        };
        let answer = exchanged(alloc, self, row, place, by)?;
        Ok(answer)
    }

    /// The pivot of the row as it is on the place, as the opening makes it. `None` exactly where a number on the
    /// way is wide.
    #[tactic(auto, using(crate::proofs::Pivots::same_number, crate::proofs::Pivots::opening_wide, crate::proofs::Pivots::opening_is))]
    pub fn opened(
        self,
        alloc: Global,
        row: usize,
        place: u32,
    ) -> Result<Option<SparseTableau>, AllocError>
        requires row { row < length self.tableau.rows }
        requires place { pos 0 <ℤ number_at self.tableau row place }
        requires can { CanPivot self.tableau row }
        ensures { IfOk result
            (λ answer. MatchOption answer
            (exchange_wide row place (held_at self.tableau.rows row).line self.tableau ≡ true)
            (λ out. IsOpened row place self out)) }
    {
        let by = copied(alloc, self.held(row).line())?;
        match exchanged(alloc, self, row, place, by)? {
            None => Ok(None),
            Some(out) => Ok(Some(out)),
        }
    }
}
