//! All rows but one, freed of a place.

ghost use Rattle.std.specs.Prelude.{◌≡◌, ◌<◌, ◌+◌, ℕ, List, pos, ◌<ℤ◌, IfOk, MatchOption, length};
ghost use Rattle.ipet_rows.specs.Sums.{coefficient};
ghost use Rattle.simplex_tableau.specs.Sparse.{HeldTerms, terms_at};
ghost use Rattle.simplex_tableau.specs.Stepped.{IsFreeable, IsDone, IsSomeWide, StepsRows, IsReplaced};

use crate::line::Line;
use crate::row::{HeldLine, free_row};
use std::alloc::{AllocError, Global};

/// Frees one more row, unless it is the one that leaves.
#[tactic(auto, using(crate::proofs::FreedRows::passed_over, crate::proofs::FreedRows::one_more, crate::proofs::Shown::terms_there))]
fn free_next(
    alloc: Global,
    rows: &mut [HeldLine],
    index: usize,
    row: usize,
    place: u32,
    by: &Line,
) -> Result<bool, AllocError>
    requires index { index < length rows.old }
    requires place { pos 0 <ℤ coefficient by.now place }
    requires freeable { (index ≡ row → ⊥) → IsFreeable by.now (terms_at rows.old index) }
    ensures { (first : List HeldTerms) → IsDone place by.now row index first rows.old
        → IfOk result (λ all. StepsRows all place by.now row (index + 1) first rows.new) }
{
    if index == row {
        return Ok(true);
    }
    let all = free_row(alloc, &mut rows[index], place, by)?;
    Ok(all)
}

/// Frees all rows but one of the place, and tells whether no number on the way was wide.
fn free_others(
    alloc: Global,
    rows: &mut [HeldLine],
    row: usize,
    place: u32,
    by: &Line,
) -> Result<bool, AllocError>
    requires place { pos 0 <ℤ coefficient by.now place }
    requires freeable { (k : ℕ) → k < length rows.old → (k ≡ row → ⊥) → IsFreeable by.now (terms_at rows.old k) }
    ensures { IfOk result (λ all. StepsRows all place by.now row (length rows.old) rows.old rows.new) }
{
    for index in 0..rows.len() {
        if !free_next(alloc, rows, index, row, place, by)? {
            return Ok(false);
        }
    }
    Ok(true)
}

/// All rows but one freed of the place by a line, which then stands in that row. `None` where a number on the
/// way is wide.
pub fn exchanged_rows(
    alloc: Global,
    mut rows: Vec<HeldLine>,
    row: usize,
    place: u32,
    by: Line,
) -> Result<Option<Vec<HeldLine>>, AllocError>
    requires row { row < length rows.items }
    requires place { pos 0 <ℤ coefficient by place }
    requires freeable { (k : ℕ) → k < length rows.items → (k ≡ row → ⊥) → IsFreeable by (terms_at rows.items k) }
    ensures { IfOk result
        (λ answer. MatchOption answer (IsSomeWide place by row rows.items)
        (λ out. IsReplaced place by row rows.items out.items)) }
{
    if !free_others(alloc, rows.as_mut_slice(), row, place, &by)? {
        return Ok(None);
    }
    rows[row] = HeldLine::of(place, by);
    Ok(Some(rows))
}
