//! The sums of the columns.

ghost use Rattle.std.specs.Prelude.{◌≡◌, ◌<◌, ◌*ℤ◌, pos, length};
ghost use Rattle.ipet_rows.specs.Programs.{IsWithin};
ghost use Rattle.ipet_rows.specs.Firsts.{first};
ghost use Rattle.ipet_rows.specs.Sparse.{summed_terms};
ghost use Rattle.ipet_rows.specs.Verdicts.{column_test as column_test_of, column_at};

use crate::products::{multiplied, with_product};
use crate::system::Rows;
use ipet_rows::Verdict;
use whole_numbers::Whole;

/// The sum of the terms' products by their multipliers, or the first row at which it is wide.
#[tactic(auto, using(ipet_rows::specs::DualRowLaws::entry_there))]
fn column_sum(terms: &[(u32, i128)], multipliers: &[i128]) -> Result<Whole, u32>
    requires { IsWithin (length multipliers.now) terms.now }
    ensures { result ≡ summed_terms multipliers.now terms.now (pos 0) }
{
    let mut sum = Whole::of(0);
    let mut rest = terms;
    while let Some((term, others)) = rest.split_first() {
        let multiplier = Whole::of(multipliers[term.0 as usize]);
        match with_product(sum, multiplier, Whole::of(term.1)) {
            None => return Err(term.0),
            Some(more) => sum = more,
        }
        rest = others;
    }
    Ok(sum)
}

/// The test of a column whose sum is known.
fn column_test(rows: u32, column: u32, scale: Whole, cost: u32, sum: Whole) -> Option<Verdict>
    ensures { result ≡ column_test_of rows column (scale *ℤ pos cost) sum }
{
    match multiplied(scale, Whole::of_word(cost as u64)) {
        None => Some(Verdict::Wide(rows)),
        Some(need) => {
            if need.at_most(sum) {
                None
            } else {
                Some(Verdict::Column(column))
            }
        }
    }
}

/// The verdict at a column.
#[tactic(auto, using(crate::proofs::ByColumns::column_within, crate::proofs::ByColumns::column_wide, crate::proofs::ByColumns::column_narrow))]
fn column_verdict(rows: &Rows, scale: Whole, multipliers: &[i128], column: u32) -> Option<Verdict>
    requires multipliers { length multipliers.now ≡ length rows.now.program.rows }
    requires column { column < length rows.now.program.costs }
    ensures { result ≡ column_at rows.now.program scale multipliers.now column }
{
    match column_sum(rows.column(column), multipliers) {
        Err(row) => Some(Verdict::Wide(row)),
        Ok(sum) => {
            let cost = rows.cost(column);
            column_test(rows.row_count(), column, scale, cost, sum)
        }
    }
}

/// The first column that is wide, or whose cost is not bounded.
pub fn wrong_column(rows: &Rows, scale: Whole, multipliers: &[i128]) -> Option<Verdict>
    requires { length multipliers.now ≡ length rows.now.program.rows }
    ensures { result ≡ first (length rows.now.program.costs) (column_at rows.now.program scale multipliers.now) }
{
    for column in 0..rows.column_count() {
        if let Some(verdict) = column_verdict(rows, scale, multipliers, column) {
            return Some(verdict);
        }
    }
    None
}
