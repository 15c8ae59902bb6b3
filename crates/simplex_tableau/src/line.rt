//! A line of a tableau.

ghost use Rattle.std.specs.Prelude.{◌≡◌, ◌≢◌, pos, ◌<ℤ◌, IfOk, MatchOption};
ghost use Rattle.ipet_rows.specs.Sums.{coefficient, IsAscending};
ghost use Rattle.simplex_tableau.specs.Shown.{IsFreed, IsFreedWide, IsTurned, IsTurnedWide};

use crate::freeing::freed_terms;
use crate::reading::number_in;
use crate::turning::turned_terms;
use std::alloc::{AllocError, Global};
use std::marker::Model;
use whole_numbers::Whole;

/// An equation in whole numbers: its numbers, each with its place, by ascending place.
#[derive(Drop)]
pub struct Line {
    terms: Vec<(u32, Whole)>,
}

impl Model for Line {
    ghost use Rattle.std.specs.Prelude.{ℕ, ℤ, List};
    ghost use Rattle.ipet_rows.specs.Sums.{IsAscending};

    ghost Value = { List (ℕ × ℤ) };

    ghost view = { λ s. s.terms.items };

    ghost invariant = { λ s. IsAscending s.terms.items };
}

impl Line {
    /// The line of these terms.
    pub fn of(terms: Vec<(u32, Whole)>) -> Line
        requires { IsAscending terms.items }
        ensures { result ≡ terms.items }
    {
        Line { terms }
    }

    /// Its terms.
    pub fn terms(&self) -> &[(u32, Whole)]
        ensures value { result.now ≡ self.now }
        ensures ascending { IsAscending result.now }
    {
        self.terms.as_slice()
    }

    /// Its number at the place. Takes time linear in the terms before it.
    pub fn number_at(&self, place: u32) -> Whole
        ensures { result ≡ coefficient self.now place }
    {
        number_in(self.terms.as_slice(), place)
    }

    /// Each of its numbers turned. `None` exactly where one is wide then.
    pub fn turned(&self, alloc: Global) -> Result<Option<Line>, AllocError>
        ensures { IfOk result (λ answer. MatchOption answer (IsTurnedWide self.now) (λ out. IsTurned self.now out)) }
    {
        match turned_terms(alloc, self.terms())? {
            None => Ok(None),
            Some(terms) => Ok(Some(Line { terms })),
        }
    }

    /// It freed of the place by a row, and divided by its common divisor. `None` exactly where a number on
    /// the way is wide.
    ///
    /// At the place `own` the line has a number above 0 and the row none, as at its basic place.
    pub fn freed(
        &self,
        alloc: Global,
        own: u32,
        place: u32,
        row: &Line,
    ) -> Result<Option<Line>, AllocError>
        requires place { pos 0 <ℤ coefficient row.now place }
        requires here { coefficient self.now place ≢ pos 0 }
        requires own { pos 0 <ℤ coefficient self.now own }
        requires apart { coefficient row.now own ≡ pos 0 }
        ensures { IfOk result
            (λ answer. MatchOption answer (IsFreedWide place row.now self.now)
            (λ out. IsFreed place row.now self.now out)) }
    {
        match freed_terms(alloc, own, place, row.terms(), self.terms())? {
            None => Ok(None),
            Some(terms) => Ok(Some(Line { terms })),
        }
    }
}
