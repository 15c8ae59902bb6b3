//! The multipliers that a tableau hands out.

ghost use Rattle.std.specs.Prelude.{◌≡◌, ◌<◌, ◌≤◌, ◌+◌, ◌^◌, ℕ, pos, ◌≤ℤ◌, ◌-ℤ◌, IfOk};
ghost use Rattle.ipet_rows.specs.Sums.{coefficient, IsAscending};
ghost use Rattle.simplex_rules.specs.Tableaus.{next_slack, slacks_from, width_of};
ghost use Rattle.path_lp.specs.Handing.{multiplier_by, multipliers_by, IsHanded};
ghost use Rattle.path_lp.specs.Stepping.{Stands};

use dual_check::{Duals, Rows};
use simplex_tableau::{SparseTableau, first_number, from_place};
use std::alloc::{AllocError, Global};
use whole_numbers::Whole;

/// The number at the place, whose terms begin not long before it.
#[tactic(auto, using(simplex_tableau::specs::TermsFromLaws::cost_is))]
fn number_from(terms: &[(u32, Whole)], place: u32) -> i128
    requires { IsAscending terms.now }
    ensures { result ≡ coefficient terms.now place }
{
    first_number(from_place(terms, place), place).number()
}

/// The difference of two numbers that are not below 0.
fn difference(first: i128, second: i128) -> i128
    requires first { pos 0 ≤ℤ first }
    requires second { pos 0 ≤ℤ second }
    ensures { result ≡ first -ℤ second }
{
    first - second
}

/// The multiplier of a row: its slack's number, and of an equation the first slack's less the second's.
fn multiplier(equation: bool, terms: &[(u32, Whole)], slack: u32) -> i128
    requires ascending { IsAscending terms.now }
    requires first { pos 0 ≤ℤ coefficient terms.now slack }
    requires second { pos 0 ≤ℤ coefficient terms.now (slack + 1) }
    requires room { next_slack equation slack < 2 ^ 32 }
    ensures { result ≡ multiplier_by equation slack terms.now }
{
    if equation {
        difference(number_from(terms, slack), number_from(terms, slack + 1))
    } else {
        number_from(terms, slack)
    }
}

/// The next slack after those of a row.
fn slack_behind(equation: bool, slack: u32) -> u32
    requires { next_slack equation slack < 2 ^ 32 }
    ensures { result ≡ next_slack equation slack }
{
    if equation { slack + 2 } else { slack + 1 }
}

/// The multipliers of the rows, whose slacks begin at the place.
fn multipliers(
    alloc: Global,
    rows: &Rows,
    slacks: u32,
    objective: &[(u32, Whole)],
) -> Result<Vec<i128>, AllocError>
    requires ascending { IsAscending objective.now }
    requires rising { (j : ℕ) → 2 ≤ j → pos 0 ≤ℤ coefficient objective.now j }
    requires slacks { slacks ≡ slacks_from rows.now.program }
    requires room { width_of rows.now.program < 2 ^ 32 }
    ensures { IfOk result
        (λ out. out.items ≡ multipliers_by rows.now.program.rows (slacks_from rows.now.program) objective.now) }
{
    let mut out = Vec::new(alloc);
    let mut slack = slacks;
    let mut rest = objective;
    for row in 0..rows.row_count() {
        let equation = rows.equation(row);
        rest = from_place(rest, slack);
        out.push(multiplier(equation, rest, slack))?;
        slack = slack_behind(equation, slack);
    }
    Ok(out)
}

/// The scale and the multipliers that the tableau hands out.
#[tactic(auto, using(crate::proofs::HandingLaws::columns_room))]
pub fn handed(alloc: Global, rows: &Rows, tableau: &SparseTableau) -> Result<Duals, AllocError>
    requires { Stands rows.now.program tableau.now }
    ensures { IfOk result (λ duals. IsHanded rows.now.program tableau.now.tableau duals.scale duals.multipliers.items) }
{
    let _width = tableau.width();
    let slacks = rows.column_count() + 2;
    let objective = tableau.objective();
    let scale = objective.number_at(1).number();
    let multipliers = multipliers(alloc, rows, slacks, objective.terms())?;
    Ok(Duals { scale, multipliers })
}
