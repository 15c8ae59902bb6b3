//! The number of places.

ghost use Rattle.std.specs.Prelude.{◌≡◌, ◌≤◌, ◌^◌, IfSome, IfNone};
ghost use Rattle.simplex_rules.specs.Tableaus.{width_of, slacks_from, next_slack};

use dual_check::Rows;

/// The next slack after those of a row, where 32 bits number it.
fn next_place(equation: bool, slack: u32) -> Option<u32>
    ensures next { IfSome result (λ next. next ≡ next_slack equation slack) }
    ensures past { IfNone result (2 ^ 32 ≤ next_slack equation slack) }
{
    if equation {
        slack.checked_add(2)
    } else {
        slack.checked_add(1)
    }
}

/// The place of the first slack, where 32 bits number it.
#[tactic(auto, using(crate::proofs::RowStepLemmas::slacks_are))]
pub fn first_slack(rows: &Rows) -> Option<u32>
    ensures slack { IfSome result (λ slack. slack ≡ slacks_from rows.now.program) }
    ensures past { IfNone result (2 ^ 32 ≤ slacks_from rows.now.program) }
{
    rows.column_count().checked_add(2)
}

/// The number of places, where 32 bits number them.
#[tactic(auto, using(crate::specs::RowStepLaws::width_next, crate::proofs::RowStepLemmas::rows_end, crate::specs::RowStepLaws::slack_below, simplex_rules::specs::HandedOutLaws::width_above))]
pub fn width(rows: &Rows) -> Option<u32>
    ensures width { IfSome result (λ width. width ≡ width_of rows.now.program) }
    ensures past { IfNone result (2 ^ 32 ≤ width_of rows.now.program) }
{
    let Some(mut slack) = first_slack(rows) else {
        return None;
    };
    for row in 0..rows.row_count() {
        let Some(next) = next_place(rows.equation(row), slack) else {
            return None;
        };
        slack = next;
    }
    Some(slack)
}
