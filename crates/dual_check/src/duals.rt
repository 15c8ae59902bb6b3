//! Multipliers, and the test of them.

ghost use Rattle.std.specs.Prelude.{◌≡◌, ◌<ℤ◌, pos, length};
ghost use Rattle.ipet_rows.specs.Verdicts.{verdict as verdict_of};
ghost use Rattle.ipet_rows.specs.Bounds.{BoundsAll, OnHolds};

use crate::columns::wrong_column;
use crate::right_sides::bound_verdict;
use crate::signs::negative_row;
use crate::system::Rows;
use ipet_rows::Verdict;
use whole_numbers::Whole;

/// A scale, and a multiplier for each row.
#[derive(Drop)]
pub struct Duals {
    /// What each multiplier is divided by.
    pub scale: i128,
    /// The multipliers, by row.
    pub multipliers: Vec<i128>,
}

/// The first of the tests, in their order.
#[tactic(auto, using(ipet_rows::specs::VerdictLaws::verdict_first, ipet_rows::specs::VerdictLaws::verdict_second, ipet_rows::specs::VerdictLaws::verdict_last))]
fn verdict_on(rows: &Rows, scale: Whole, multipliers: &[i128], bound: u64) -> Verdict
    requires multipliers { length multipliers.now ≡ length rows.now.program.rows }
    requires scale { pos 0 <ℤ scale }
    ensures { result ≡ verdict_of rows.now.program scale multipliers.now bound }
{
    match negative_row(rows, multipliers) {
        Some(verdict) => verdict,
        None => match wrong_column(rows, scale, multipliers) {
            Some(verdict) => verdict,
            None => bound_verdict(rows, scale, multipliers, bound),
        },
    }
}

/// The same, on the parts of the multipliers.
fn verdict_on_duals(rows: &Rows, duals: &Duals, bound: u64) -> Verdict
    requires multipliers { length duals.now.multipliers.items ≡ length rows.now.program.rows }
    requires scale { pos 0 <ℤ duals.now.scale }
    ensures { result ≡ verdict_of rows.now.program duals.now.scale duals.now.multipliers.items bound }
{
    let scale = Whole::of(duals.scale);
    verdict_on(rows, scale, duals.multipliers.as_slice(), bound)
}

/// The verdict on the multipliers: the first of the tests in their order. Takes no memory, and time
/// linear in the terms of the rows.
///
/// Whoever found the multipliers is not trusted: `Holds` says that each point that meets the rows is
/// worth at most the bound, rounded down.
pub fn verify(rows: &Rows, duals: &Duals, bound: u64) -> Verdict
    requires multipliers { length duals.now.multipliers.items ≡ length rows.now.program.rows }
    requires scale { pos 0 <ℤ duals.now.scale }
    ensures exact { result ≡ verdict_of rows.now.program duals.now.scale duals.now.multipliers.items bound }
    ensures bounds { OnHolds result (λ v. BoundsAll rows.now.program v bound) }
{
    rows.kept();
    verdict_on_duals(rows, duals, bound)
}
