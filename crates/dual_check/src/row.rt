//! A row by its terms.

ghost use Rattle.std.specs.Prelude.{◌≡◌, ◌++◌, ◌∷◌, [], ℕ, ℤ, List, OnOk};
ghost use Rattle.ipet_rows.specs.Programs.{Row};
ghost use Rattle.ipet_rows.specs.Sums.{coefficient, IsAscending};

use std::alloc::{AllocError, Global};
use std::marker::Model;

/// An equation or an at-most row: its coefficients other than 0, each with its column, by ascending
/// column, and its right side.
#[derive(Drop)]
pub struct RowTerms {
    pub(crate) equation: bool,
    pub(crate) terms: Vec<(u32, i128)>,
    pub(crate) right: i128,
}

impl Model for RowTerms {
    ghost Value = { Row };

    ghost view = { λ s. record { equation = s.equation; terms = s.terms.items; right = s.right } };
}

/// What the rows have at a column, other than 0, each with its row, by ascending row.
#[derive(Drop)]
pub struct ColumnTerms {
    pub(crate) terms: Vec<(u32, i128)>,
}

impl Model for ColumnTerms {
    ghost use Rattle.std.specs.Prelude.{ℕ, ℤ, List};

    ghost Value = { List (ℕ × ℤ) };

    ghost view = { λ s. s.terms.items };
}

impl ColumnTerms {
    /// No numbers.
    pub fn new(alloc: Global) -> ColumnTerms
        ensures { result ≡ [] }
    {
        ColumnTerms {
            terms: Vec::new(alloc),
        }
    }

    /// Appends a number with its row.
    pub fn push(&mut self, row: u32, number: i128) -> Result<(), AllocError>
        ensures { OnOk result (self.new ≡ self.old ++ (row, number) ∷ []) }
    {
        self.terms.push((row, number))?;
        Ok(())
    }

    /// The numbers, each with its row.
    pub fn terms(&self) -> &[(u32, i128)]
        ensures { result.now ≡ self.now }
    {
        self.terms.as_slice()
    }
}

/// What the terms have at the column. Takes time linear in the terms.
#[tactic(auto, using(ipet_rows::specs::DualRowLaws::found_here, ipet_rows::specs::DualRowLaws::found_later))]
pub fn coefficient_in(terms: &[(u32, i128)], column: u32) -> i128
    requires { IsAscending terms.now }
    ensures { result ≡ coefficient terms.now column }
{
    let mut rest = terms;
    while let Some((term, others)) = rest.split_first() {
        if term.0 == column {
            return term.1;
        }
        rest = others;
    }
    0
}

impl RowTerms {
    /// It is an equation.
    pub fn is_equation(&self) -> bool
        ensures { result ≡ self.now.equation }
    {
        self.equation
    }

    /// Its right side.
    pub fn right_side(&self) -> i128
        ensures { result ≡ self.now.right }
    {
        self.right
    }

    /// Its coefficients other than 0, each with its column.
    pub fn terms(&self) -> &[(u32, i128)]
        ensures { result.now ≡ self.now.terms }
    {
        self.terms.as_slice()
    }
}
