//! The lines of a row.

ghost use Rattle.std.specs.Prelude.{◌≡◌, ◌<◌, ◌≤◌, ◌+◌, ◌-◌, ◌++◌, ◌^◌, ◌∷◌, [], neg_ℤ, IfOk, OnOk, length};
ghost use Rattle.ipet_rows.specs.Sums.{IsAscending};
ghost use Rattle.ipet_rows.specs.Programs.{IsWithin, row_at};
ghost use Rattle.dual_check.specs.Terms.{term_if};
ghost use Rattle.simplex_rules.specs.Tableaus.{placed, turned as turned_of, next_slack};
ghost use Rattle.dual_check.specs.Small.{IsSmall, IsUpTo};
ghost use Rattle.simplex_tableau.specs.FirstTerms.{AreSmall, first_terms, slack_held, row_held};

use crate::line::Line;
use crate::row::HeldLine;
use dual_check::Rows;
use std::alloc::{AllocError, Global};
use whole_numbers::Whole;

/// Appends the right side, unless it is 0.
fn push_right(out: &mut Vec<(u32, Whole)>, right: i128) -> Result<(), AllocError>
    ensures { OnOk result (out.new.items ≡ out.old.items ++ term_if 0 right) }
{
    if right <= 0 && 0 <= right {
        return Ok(());
    }
    out.push((0, Whole::of(right)))?;
    Ok(())
}

/// Appends the terms at the places of their variables.
fn push_placed(out: &mut Vec<(u32, Whole)>, terms: &[(u32, i128)]) -> Result<(), AllocError>
    requires { IsWithin (2 ^ 32 - 2) terms.now }
    ensures { OnOk result (out.new.items ≡ out.old.items ++ placed terms.now) }
{
    let mut rest = terms;
    while let Some((term, others)) = rest.split_first() {
        out.push((term.0 + 2, Whole::of(term.1)))?;
        rest = others;
    }
    Ok(())
}

/// An at-most row with its slack, by terms.
fn row_terms(
    alloc: Global,
    right: i128,
    terms: &[(u32, i128)],
    slack: u32,
) -> Result<Vec<(u32, Whole)>, AllocError>
    requires { IsWithin (2 ^ 32 - 2) terms.now }
    ensures { IfOk result (λ out. out.items ≡ first_terms right terms.now slack) }
{
    let mut out = Vec::new(alloc);
    push_right(&mut out, right)?;
    push_placed(&mut out, terms)?;
    out.push((slack, Whole::of(1)))?;
    Ok(out)
}

/// The line of an at-most row with its slack.
#[tactic(auto, using(crate::proofs::FirstLaws::slack_rises, crate::proofs::FirstLaws::slack_room))]
fn slack_line(
    alloc: Global,
    right: i128,
    terms: &[(u32, i128)],
    slack: u32,
) -> Result<HeldLine, AllocError>
    requires slack { 2 ≤ slack }
    requires within { IsWithin (slack - 2) terms.now }
    requires ascending { IsAscending terms.now }
    ensures { IfOk result (λ held. held ≡ slack_held right terms.now slack) }
{
    let line = row_terms(alloc, right, terms, slack)?;
    Ok(HeldLine::of(slack, Line::of(line)))
}

/// The terms, each number turned.
fn turned(alloc: Global, terms: &[(u32, i128)]) -> Result<Vec<(u32, i128)>, AllocError>
    requires { AreSmall terms.now }
    ensures { IfOk result (λ out. out.items ≡ turned_of terms.now) }
{
    let mut out = Vec::new(alloc);
    let mut rest = terms;
    while let Some((term, others)) = rest.split_first() {
        out.push((term.0, 0 - term.1))?;
        rest = others;
    }
    Ok(out)
}

/// The line of an equation as an at-least row, with its slack.
#[tactic(auto, using(crate::proofs::TermLemmas::turned_rises, crate::proofs::TermLemmas::turned_within))]
fn turned_line(
    alloc: Global,
    right: i128,
    terms: &[(u32, i128)],
    slack: u32,
) -> Result<HeldLine, AllocError>
    requires slack { 2 ≤ slack }
    requires within { IsWithin (slack - 2) terms.now }
    requires ascending { IsAscending terms.now }
    requires small { AreSmall terms.now }
    requires right { IsUpTo 8589934592 right }
    ensures { IfOk result (λ held. held ≡ slack_held (neg_ℤ right) (turned_of terms.now) slack) }
{
    let others = turned(alloc, terms)?;
    let held = slack_line(alloc, 0 - right, &others, slack)?;
    Ok(held)
}

/// Appends the lines of a row, and tells the next slack.
#[tactic(auto, using(crate::proofs::FirstLaws::small_terms, crate::proofs::FirstLaws::terms_room))]
pub fn push_row(
    alloc: Global,
    rows: &Rows,
    row: u32,
    slack: u32,
    out: &mut Vec<HeldLine>,
) -> Result<u32, AllocError>
    requires row { row < length rows.now.program.rows }
    requires small { IsSmall rows.now.program }
    requires slack { length rows.now.program.costs + 2 ≤ slack }
    requires room { next_slack (row_at rows.now.program.rows row).equation slack < 2 ^ 32 }
    ensures held { OnOk result
        (out.new.items
        ≡ out.old.items
        ++ row_held (row_at rows.now.program.rows row).equation (row_at rows.now.program.rows row) slack) }
    ensures next { IfOk result (λ next. next ≡ next_slack (row_at rows.now.program.rows row).equation slack) }
{
    rows.kept();
    out.push(slack_line(alloc, rows.right(row), rows.terms(row), slack)?)?;
    if !rows.equation(row) {
        return Ok(slack + 1);
    }
    out.push(turned_line(alloc, rows.right(row), rows.terms(row), slack + 1)?)?;
    Ok(slack + 2)
}
