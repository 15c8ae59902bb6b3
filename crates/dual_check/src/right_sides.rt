//! The sum of the right sides.

ghost use Rattle.std.specs.Prelude.{◌≡◌, ◌<◌, ◌<ℤ◌, pos, length, Some, None, MatchResult};
ghost use Rattle.ipet_rows.specs.Sums.{total};
ghost use Rattle.ipet_rows.specs.Programs.{row_at};
ghost use Rattle.ipet_rows.specs.Duals.{right_part};
ghost use Rattle.ipet_rows.specs.Verdicts.{first_wide, floor_of, bound_test as bound_test_of, right_verdict};

use crate::products::{multiplier_of, with_product};
use crate::system::Rows;
use ipet_rows::Verdict;
use whole_numbers::Whole;

/// The right side of a row.
fn right_of(rows: &Rows, row: u32) -> Whole
    requires { row < length rows.now.program.rows }
    ensures { result ≡ (row_at rows.now.program.rows row).right }
{
    Whole::of(rows.right(row))
}

/// The sum over the rows of multiplier times right side, or the first row at which it is wide.
fn sum_of_rights(rows: &Rows, multipliers: &[i128]) -> Result<Whole, u32>
    requires { length multipliers.now ≡ length rows.now.program.rows }
    ensures { MatchResult result
        (λ sum. (first_wide (length rows.now.program.rows) (right_part rows.now.program multipliers.now) ≡ None)
        × (sum ≡ total (length rows.now.program.rows) (right_part rows.now.program multipliers.now)))
        (λ k. first_wide (length rows.now.program.rows) (right_part rows.now.program multipliers.now) ≡ Some k) }
{
    let mut sum = Whole::of(0);
    for row in 0..rows.row_count() {
        let multiplier = multiplier_of(multipliers, row);
        let right = right_of(rows, row);
        match with_product(sum, multiplier, right) {
            None => return Err(row),
            Some(more) => sum = more,
        }
    }
    Ok(sum)
}

/// The dual value, rounded down; a negative one is 0.
fn floor(sum: Whole, scale: Whole) -> u128
    requires { pos 0 <ℤ scale }
    ensures { result ≡ floor_of sum scale }
{
    let quotient = sum.quotient(scale);
    Whole::of(0).greatest(quotient).number().unsigned_abs()
}

/// The comparison with the bound.
fn bound_test(bound: u64, value: u128) -> Verdict
    ensures { result ≡ bound_test_of bound value }
{
    if value <= bound as u128 {
        Verdict::Holds(value as u64)
    } else {
        Verdict::Bound(value)
    }
}

/// The verdict on the right sides.
pub fn bound_verdict(rows: &Rows, scale: Whole, multipliers: &[i128], bound: u64) -> Verdict
    requires multipliers { length multipliers.now ≡ length rows.now.program.rows }
    requires scale { pos 0 <ℤ scale }
    ensures { result ≡ right_verdict rows.now.program scale multipliers.now bound }
{
    match sum_of_rights(rows, multipliers) {
        Err(row) => Verdict::Wide(row),
        Ok(sum) => bound_test(bound, floor(sum, scale)),
    }
}
