//! A tableau by terms.

ghost use Rattle.std.specs.Prelude.{◌≡◌, ◌<◌, length};
ghost use Rattle.simplex_rules.specs.Lines.{spread};
ghost use Rattle.simplex_rules.specs.Tableaus.{held_at, number_at, basic_at};
ghost use Rattle.simplex_tableau.specs.Sparse.{seen, IsKept, AreKept};

use crate::line::Line;
use crate::row::HeldLine;
use std::marker::Model;
use whole_numbers::Whole;

/// A width, rows with their basic places, and the objective.
#[derive(Drop)]
pub struct SparseTableau {
    pub(crate) width: u32,
    pub(crate) rows: Vec<HeldLine>,
    pub(crate) objective: Line,
}

impl Model for SparseTableau {
    ghost use Rattle.simplex_tableau.specs.Sparse.{Seen, seen, IsKept, AreKept};

    ghost Value = { Seen };

    ghost view = { λ s. seen s.width s.rows.items s.objective };

    ghost invariant = { λ s. AreKept s.width s.rows.items × IsKept s.width s.objective };
}

impl SparseTableau {
    /// The tableau of these lines.
    pub fn of(width: u32, rows: Vec<HeldLine>, objective: Line) -> SparseTableau
        requires rows { AreKept width rows.items }
        requires objective { IsKept width objective }
        ensures { result ≡ seen width rows.items objective }
    {
        SparseTableau {
            width,
            rows,
            objective,
        }
    }

    /// The number of places.
    pub fn width(&self) -> u32
        ensures { result ≡ self.now.width }
    {
        self.width
    }

    /// The number of rows.
    #[tactic(auto, using(crate::proofs::Shown::shown_count))]
    pub fn row_count(&self) -> usize
        ensures { result ≡ length self.now.tableau.rows }
    {
        self.rows.len()
    }

    /// A row.
    #[tactic(auto, using(crate::proofs::Shown::terms_there, crate::proofs::Shown::shown_at, crate::proofs::Shown::shown_count))]
    pub(crate) fn held(&self, row: usize) -> &HeldLine
        requires { row < length self.now.tableau.rows }
        ensures line { (held_at self.now.tableau.rows row).line ≡ spread self.now.width 0 result.now.terms }
        ensures basic { basic_at self.now.tableau row ≡ result.now.basic }
        ensures kept { IsKept self.now.width result.now.terms }
    {
        &self.rows[row]
    }

    /// The basic place of a row.
    pub fn basic(&self, row: usize) -> u32
        requires { row < length self.now.tableau.rows }
        ensures { result ≡ basic_at self.now.tableau row }
    {
        self.held(row).basic()
    }

    /// The number of a row at a place.
    #[tactic(auto, using(crate::proofs::Shown::number_of_line))]
    pub fn number_at(&self, row: usize, place: u32) -> Whole
        requires { row < length self.now.tableau.rows }
        ensures { result ≡ number_at self.now.tableau row place }
    {
        self.held(row).line().number_at(place)
    }

    /// The objective.
    pub fn objective(&self) -> &Line
        ensures shown { spread self.now.width 0 result.now ≡ self.now.tableau.objective }
        ensures kept { IsKept self.now.width result.now }
    {
        &self.objective
    }
}
