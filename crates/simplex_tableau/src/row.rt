//! A row of a tableau.

ghost use Rattle.std.specs.Prelude.{◌≡◌, pos, ◌<ℤ◌, IfOk};
ghost use Rattle.ipet_rows.specs.Sums.{coefficient};
ghost use Rattle.simplex_tableau.specs.Stepped.{IsFreeable, StepsRow};

use crate::line::Line;
use std::alloc::{AllocError, Global};
use std::marker::Model;
use whole_numbers::Whole;

/// A line, with its basic place.
#[derive(Drop)]
pub struct HeldLine {
    basic: u32,
    line: Line,
}

impl Model for HeldLine {
    ghost use Rattle.simplex_tableau.specs.Sparse.{HeldTerms};

    ghost Value = { HeldTerms };

    ghost view = { λ s. record { basic = s.basic; terms = s.line } };
}

impl HeldLine {
    /// The line with the basic place.
    pub fn of(basic: u32, line: Line) -> HeldLine
        ensures { result ≡ record { basic = basic; terms = line } }
    {
        HeldLine { basic, line }
    }

    /// Its basic place.
    pub fn basic(&self) -> u32
        ensures { result ≡ self.now.basic }
    {
        self.basic
    }

    /// Its line.
    pub fn line(&self) -> &Line
        ensures { result.now ≡ self.now.terms }
    {
        &self.line
    }

    /// The line without its basic place.
    pub fn into_line(self) -> Line
        ensures { result ≡ self.terms }
    {
        self.line
    }
}

/// Frees the row of the place by a line that has a number above 0 there, and tells whether no number on the
/// way was wide. A row that has nothing at the place stays as it is.
#[tactic(auto, using(crate::proofs::FreedRows::row_stays, crate::proofs::FreedRows::row_freed, crate::proofs::FreedRows::row_wide))]
pub fn free_row(
    alloc: Global,
    held: &mut HeldLine,
    place: u32,
    by: &Line,
) -> Result<bool, AllocError>
    requires place { pos 0 <ℤ coefficient by.now place }
    requires freeable { IsFreeable by.now held.old }
    ensures { IfOk result (λ all. StepsRow all place by.now held.old held.new) }
{
    if held.line.number_at(place).equals(Whole::of(0)) {
        return Ok(true);
    }
    match held.line.freed(alloc, held.basic, place, by)? {
        None => Ok(false),
        Some(line) => {
            held.line = line;
            Ok(true)
        }
    }
}
