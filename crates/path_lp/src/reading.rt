//! The point that is read off a tableau.

ghost use Rattle.std.specs.Prelude.{◌≡◌, ◌<◌, ◌+◌, IfOk, length};
ghost use Rattle.path_lp.specs.Fractions.{fraction_of, fractions};
ghost use Rattle.path_lp.specs.Stepping.{Stands};

use dual_check::Rows;
use simplex_tableau::SparseTableau;
use std::alloc::{AllocError, Global};

/// The fraction at a place.
fn fraction(tableau: &SparseTableau, place: u32) -> (i128, i128)
    ensures { result ≡ fraction_of tableau.now.tableau.rows place }
{
    for row in 0..tableau.row_count() {
        if place == tableau.basic(row) {
            return (
                tableau.number_at(row, 0).number(),
                tableau.number_at(row, place).number(),
            );
        }
    }
    (0, 1)
}

/// The fractions of the columns.
#[tactic(auto, using(crate::proofs::HandingLaws::columns_room))]
pub fn point(
    alloc: Global,
    rows: &Rows,
    tableau: &SparseTableau,
) -> Result<Vec<(i128, i128)>, AllocError>
    requires { Stands rows.now.program tableau.now }
    ensures { IfOk result (λ out. out.items ≡ fractions tableau.now.tableau.rows (length rows.now.program.costs) 2) }
{
    let _width = tableau.width();
    let mut out = Vec::new(alloc);
    for column in 0..rows.column_count() {
        out.push(fraction(tableau, column + 2))?;
    }
    Ok(out)
}
