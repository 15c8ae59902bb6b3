//! A linear program as a cost for each column and rows by terms, and the same terms by columns.

ghost use Rattle.std.specs.Prelude.{◌≡◌, ◌<◌, length, slice_get, Some};
ghost use Rattle.ipet_rows.specs.Programs.{row_at, cost_at};
ghost use Rattle.ipet_rows.specs.Sums.{coefficient, IsAscending};
ghost use Rattle.ipet_rows.specs.Sparse.{column_terms};
ghost use Rattle.dual_check.specs.Systems.{IsSystem};

use crate::row::{ColumnTerms, RowTerms, coefficient_in};
use std::marker::Model;

/// A cost for each column, the rows, and the openings.
#[derive(Drop)]
pub struct Rows {
    pub(crate) costs: Vec<u32>,
    pub(crate) rows: Vec<RowTerms>,
    pub(crate) columns: Vec<ColumnTerms>,
    pub(crate) openings: Vec<(u32, u32)>,
}

impl Model for Rows {
    ghost use Rattle.std.specs.Prelude.{length};
    ghost use Rattle.dual_check.specs.Systems.{System, IsSystem, AreColumns};

    ghost Value = { System };

    ghost view = { λ s. record { program = record { costs = s.costs.items; rows = s.rows.items }; openings = s.openings.items } };

    ghost invariant = { λ s. IsSystem (record { program = record { costs = s.costs.items; rows = s.rows.items }; openings = s.openings.items }) × AreColumns (length s.costs.items) s.rows.items s.columns.items };
}

impl Rows {
    /// What every such program keeps.
    pub fn kept(&self)
        ensures { IsSystem self.now }
    {
        let _ = &self.costs;
    }

    /// The number of rows.
    pub fn row_count(&self) -> u32
        ensures { result ≡ length self.now.program.rows }
    {
        self.rows.len() as u32
    }

    /// The number of columns.
    pub fn column_count(&self) -> u32
        ensures { result ≡ length self.now.program.costs }
    {
        self.costs.len() as u32
    }

    /// The cost of a column.
    #[tactic(auto, using(ipet_rows::specs::DualRowLaws::cost_there))]
    pub fn cost(&self, column: u32) -> u32
        requires { column < length self.now.program.costs }
        ensures { result ≡ cost_at self.now.program.costs column }
    {
        self.costs[column as usize]
    }

    /// A row.
    #[tactic(auto, using(ipet_rows::specs::DualRowLaws::row_there))]
    pub(crate) fn row(&self, row: u32) -> &RowTerms
        requires { row < length self.now.program.rows }
        ensures value { result.now ≡ row_at self.now.program.rows row }
        ensures ascending { IsAscending result.now.terms }
    {
        &self.rows[row as usize]
    }

    /// Whether the row is an equation. If not, it is an at-most row.
    pub fn equation(&self, row: u32) -> bool
        requires { row < length self.now.program.rows }
        ensures { result ≡ (row_at self.now.program.rows row).equation }
    {
        self.row(row).is_equation()
    }

    /// What the row has at the column, which may be 0. Takes time linear in the row's terms.
    pub fn coefficient(&self, row: u32, column: u32) -> i128
        requires { row < length self.now.program.rows }
        ensures { result ≡ coefficient (row_at self.now.program.rows row).terms column }
    {
        coefficient_in(self.row(row).terms(), column)
    }

    /// The right side of the row.
    pub fn right(&self, row: u32) -> i128
        requires { row < length self.now.program.rows }
        ensures { result ≡ (row_at self.now.program.rows row).right }
    {
        self.row(row).right_side()
    }

    /// The row's coefficients other than 0, each with its column, by ascending column.
    pub fn terms(&self, row: u32) -> &[(u32, i128)]
        requires { row < length self.now.program.rows }
        ensures { result.now ≡ (row_at self.now.program.rows row).terms }
    {
        self.row(row).terms()
    }

    /// What the rows have at the column, each number with its row, by ascending row.
    #[tactic(auto, using(crate::proofs::ByColumns::column_there, crate::proofs::ByColumns::columns_count))]
    pub(crate) fn column(&self, column: u32) -> &[(u32, i128)]
        requires { column < length self.now.program.costs }
        ensures { result.now ≡ column_terms column 0 self.now.program.rows }
    {
        self.columns[column as usize].terms()
    }

    /// The number of openings.
    pub fn opening_count(&self) -> u32
        ensures { result ≡ length self.now.openings }
    {
        self.openings.len() as u32
    }

    /// An opening: the number of a row, and that of a column.
    pub fn opening(&self, i: u32) -> (u32, u32)
        requires { i < length self.now.openings }
        ensures { slice_get self.now.openings i ≡ Some result }
    {
        self.openings[i as usize]
    }
}
