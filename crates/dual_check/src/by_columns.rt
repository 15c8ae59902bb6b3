//! The terms of rows, by columns.

ghost use Rattle.std.specs.Prelude.{◌≡◌, ◌<◌, ◌++◌, ◌∷◌, ◌^◌, [], ℕ, OnOk, IfOk, length, get_or, slice_set};
ghost use Rattle.ipet_rows.specs.Programs.{IsWithin};
ghost use Rattle.ipet_rows.specs.Sums.{coefficient, IsAscending};
ghost use Rattle.ipet_rows.specs.PathSparseLaws.{AreSome};
ghost use Rattle.dual_check.specs.Systems.{AreColumns, AreOf};
ghost use Rattle.dual_check.specs.Terms.{term_if};

use crate::row::{ColumnTerms, RowTerms};
use std::alloc::{AllocError, Global};

/// So many lists without a term.
#[tactic(auto, using(crate::proofs::Turned::nothing_more))]
fn no_terms(alloc: Global, count: u32) -> Result<Vec<ColumnTerms>, AllocError>
    ensures { IfOk result (λ lists. (length lists.items ≡ count) × ((e : ℕ) → get_or lists.items e [] ≡ [])) }
{
    let mut lists = Vec::new(alloc);
    for column in 0..count {
        let _ = column;
        lists.push(ColumnTerms::new(alloc))?;
    }
    Ok(lists)
}

/// Appends a term to the list of a column.
fn push_number(
    lists: &mut [ColumnTerms],
    column: u32,
    row: u32,
    number: i128,
) -> Result<(), AllocError>
    requires { column < length lists.old }
    ensures { OnOk result (lists.new ≡ slice_set lists.old column (get_or lists.old column [] ++ (row, number) ∷ [])) }
{
    lists[column as usize].push(row, number)?;
    Ok(())
}

/// Appends a row's terms to the lists of their columns.
#[tactic(auto, using(crate::proofs::Turned::put_next, crate::proofs::Turned::put_all))]
fn push_row(lists: &mut [ColumnTerms], row: u32, terms: &[(u32, i128)]) -> Result<(), AllocError>
    requires within { IsWithin (length lists.old) terms.now }
    requires ascending { IsAscending terms.now }
    requires some { AreSome terms.now }
    ensures count { OnOk result (length lists.new ≡ length lists.old) }
    ensures terms { OnOk result
        ((e : ℕ) → get_or lists.new e [] ≡ get_or lists.old e [] ++ term_if row (coefficient terms.now e)) }
{
    let mut rest = terms;
    while let Some((term, others)) = rest.split_first() {
        push_number(lists, term.0, row, term.1)?;
        rest = others;
    }
    Ok(())
}

/// The terms of the rows by columns, of which there are so many.
#[tactic(auto, using(crate::proofs::Turned::turned_more, crate::proofs::Turned::turned_all))]
pub fn by_columns(
    alloc: Global,
    count: u32,
    rows: &[RowTerms],
) -> Result<Vec<ColumnTerms>, AllocError>
    requires few { length rows.now < 2 ^ 32 }
    requires rows { AreOf count rows.now }
    ensures { IfOk result (λ lists. AreColumns count rows.now lists.items) }
{
    let mut lists = no_terms(alloc, count)?;
    let slots = lists.as_mut_slice();
    let mut rest = rows;
    let mut number: u32 = 0;
    while let Some((row, others)) = rest.split_first() {
        push_row(slots, number, row.terms())?;
        number += 1;
        rest = others;
    }
    Ok(lists)
}
