//! The columns that lead from each node or into it.

ghost use Rattle.std.specs.Prelude.{◌≡◌, ◌<◌, ◌+◌, ◌++◌, ◌∷◌, ◌^◌, [], ℕ, OnOk, IfOk, length, get_or, slice_set};
ghost use Rattle.dual_check.specs.Places.{touches, place_if, AreTouching};
ghost use Rattle.dual_check.specs.Terms.{AreFrom};

use crate::column::Column;
use crate::places::Places;
use std::alloc::{AllocError, Global};

/// So many lists without a number, and one more.
#[tactic(auto, using(crate::proofs::Touched::nothing_more))]
fn no_places(alloc: Global, count: u32) -> Result<Vec<Places>, AllocError>
    ensures { IfOk result (λ lists. (length lists.items ≡ count + 1) × ((n : ℕ) → get_or lists.items n [] ≡ [])) }
{
    let mut lists = Vec::new(alloc);
    lists.push(Places::new(alloc))?;
    for list in 0..count {
        let _ = list;
        lists.push(Places::new(alloc))?;
    }
    Ok(lists)
}

/// Appends a number to a list.
fn push_place(lists: &mut [Places], at: u32, place: u32) -> Result<(), AllocError>
    requires { at < length lists.old }
    ensures { OnOk result (lists.new ≡ slice_set lists.old at (get_or lists.old at [] ++ place ∷ [])) }
{
    lists[at as usize].push(place)?;
    Ok(())
}

/// Appends the number of a column to the lists of its nodes.
#[tactic(auto, using(crate::proofs::Touched::pushed_once, crate::proofs::Touched::pushed_twice))]
fn push_column(lists: &mut [Places], column: Column, number: u32) -> Result<(), AllocError>
    requires from { column.from < length lists.old }
    requires into { column.into < length lists.old }
    ensures count { OnOk result (length lists.new ≡ length lists.old) }
    ensures places { OnOk result
        ((n : ℕ) → get_or lists.new n [] ≡ get_or lists.old n [] ++ place_if number (touches n column)) }
{
    push_place(lists, column.from(), number)?;
    if column.from() == column.into() {
        return Ok(());
    }
    push_place(lists, column.into(), number)
}

/// For each node, and for the end, the numbers of the columns that lead from it or into it.
#[tactic(auto, using(crate::proofs::Touched::touched_more, crate::proofs::Touched::touched_all))]
pub fn touching(alloc: Global, nodes: u32, columns: &[Column]) -> Result<Vec<Places>, AllocError>
    requires few { length columns.now < 2 ^ 32 }
    requires nodes { AreFrom nodes columns.now }
    ensures { IfOk result (λ lists. AreTouching columns.now lists.items) }
{
    let mut lists = no_places(alloc, nodes)?;
    let slots = lists.as_mut_slice();
    let mut rest = columns;
    let mut number: u32 = 0;
    while let Some((column, others)) = rest.split_first() {
        push_column(slots, *column, number)?;
        number += 1;
        rest = others;
    }
    Ok(lists)
}
