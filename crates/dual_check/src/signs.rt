//! The signs of multipliers.

ghost use Rattle.std.specs.Prelude.{◌≡◌, ◌<◌, length};
ghost use Rattle.ipet_rows.specs.Firsts.{first};
ghost use Rattle.ipet_rows.specs.Verdicts.{sign_test as sign_test_of, sign_at};

use crate::system::Rows;
use ipet_rows::Verdict;

/// The test of one multiplier.
fn sign_test(row: u32, equation: bool, multiplier: i128) -> Option<Verdict>
    ensures { result ≡ sign_test_of row equation multiplier }
{
    if equation || 0 <= multiplier {
        None
    } else {
        Some(Verdict::Negative(row))
    }
}

/// The verdict on the multiplier of a row.
#[tactic(auto, using(ipet_rows::specs::DualRowLaws::entry_there))]
fn sign_verdict(rows: &Rows, multipliers: &[i128], row: u32) -> Option<Verdict>
    requires multipliers { length multipliers.now ≡ length rows.now.program.rows }
    requires row { row < length rows.now.program.rows }
    ensures { result ≡ sign_at rows.now.program multipliers.now row }
{
    let equation = rows.equation(row);
    sign_test(row, equation, multipliers[row as usize])
}

/// The first at-most row with a multiplier below 0.
pub fn negative_row(rows: &Rows, multipliers: &[i128]) -> Option<Verdict>
    requires { length multipliers.now ≡ length rows.now.program.rows }
    ensures { result ≡ first (length rows.now.program.rows) (sign_at rows.now.program multipliers.now) }
{
    for row in 0..rows.row_count() {
        if let Some(verdict) = sign_verdict(rows, multipliers, row) {
            return Some(verdict);
        }
    }
    None
}
