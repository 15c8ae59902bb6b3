//! The terms of rows.

ghost use Rattle.std.specs.Prelude.{◌≡◌, ◌<◌, ◌++◌, ◌^◌, OnOk, IfOk, length};
ghost use Rattle.domain_core.specs.Outlines.{shape_of};
ghost use Rattle.ipet_rows.specs.Rows.{terms_from};
ghost use Rattle.dual_check.specs.Constraints.{weighing_of};
ghost use Rattle.dual_check.specs.Places.{least_of, AreTouching};
ghost use Rattle.dual_check.specs.Terms.{term_if, AreFrom};

use crate::column::Column;
use crate::constraint::Constraint;
use crate::places::{Places, least, numbers_at, past};
use domain_core::Outline;
use std::alloc::{AllocError, Global};

/// Appends a term, unless its number is 0.
fn push_term(terms: &mut Vec<(u32, i128)>, place: u32, number: i128) -> Result<(), AllocError>
    ensures { OnOk result (terms.new.items ≡ terms.old.items ++ term_if place number) }
{
    if number <= 0 && 0 <= number {
        return Ok(());
    }
    terms.push((place, number))?;
    Ok(())
}

/// The least of the lists' first numbers and the limit.
fn next_of(first: &[u32], second: &[u32], third: &[u32], limit: u32) -> u32
    ensures { result ≡ least_of first.now (least_of second.now (least_of third.now limit)) }
{
    least(first, least(second, least(third, limit)))
}

/// A row's terms: what the constraint weighs at the columns, where that is not 0. Only the columns
/// that touch one of its nodes are looked at.
#[tactic(auto, using(crate::proofs::Sought::column_there, crate::proofs::Sought::sought_first, crate::proofs::Sought::sought_next, crate::proofs::Sought::sought_all))]
pub fn row_terms(
    alloc: Global,
    outline: &Outline,
    constraint: Constraint,
    columns: &[Column],
    touching: &[Places],
) -> Result<Vec<(u32, i128)>, AllocError>
    requires few { length columns.now < 2 ^ 32 }
    requires nodes { AreFrom (length outline.now.nodes) columns.now }
    requires touching { AreTouching columns.now touching.now }
    ensures { IfOk result
        (λ terms. terms.items ≡ terms_from (weighing_of (shape_of outline.now) constraint).weight 0 columns.now) }
{
    let mut terms = Vec::new(alloc);
    let end = columns.len() as u32;
    let mut first = numbers_at(touching, constraint.node());
    let mut second = numbers_at(touching, constraint.second_node());
    let mut third = numbers_at(touching, constraint.third_node());
    let mut place = next_of(first, second, third, end);
    while place < end {
        let number = constraint.weight(outline, columns[place as usize]);
        push_term(&mut terms, place, number)?;
        first = past(first, place);
        second = past(second, place);
        third = past(third, place);
        place = next_of(first, second, third, end);
    }
    Ok(terms)
}
