//! Sums and products, each tested at 128 bits.

ghost use Rattle.std.specs.Prelude.{◌≡◌, ◌<◌, ◌+ℤ◌, ◌*ℤ◌, length};
ghost use Rattle.ipet_rows.specs.Firsts.{entry};
ghost use Rattle.ipet_rows.specs.Verdicts.{summed};
ghost use Rattle.dual_check.specs.Fitting.{fitting};

use whole_numbers::Whole;

/// The multiplier of a row.
#[tactic(auto, using(ipet_rows::specs::DualRowLaws::entry_there))]
pub fn multiplier_of(multipliers: &[i128], row: u32) -> Whole
    requires { row < length multipliers.now }
    ensures { result ≡ entry multipliers.now row }
{
    Whole::of(multipliers[row as usize])
}

/// The sum, where it fits.
#[tactic(auto, using(crate::proofs::Fitting::fitting_yes, crate::proofs::Fitting::fitting_no))]
fn added(first: Whole, second: Whole) -> Option<Whole>
    ensures { result ≡ fitting (first +ℤ second) }
{
    match first.checked_add(second) {
        Some(sum) => Some(sum),
        None => None,
    }
}

/// The product, where it fits.
#[tactic(auto, using(crate::proofs::Fitting::fitting_yes, crate::proofs::Fitting::fitting_no))]
pub fn multiplied(first: Whole, second: Whole) -> Option<Whole>
    ensures { result ≡ fitting (first *ℤ second) }
{
    match first.checked_mul(second) {
        Some(product) => Some(product),
        None => None,
    }
}

/// The sum with a product more, where both fit.
pub fn with_product(sum: Whole, multiplier: Whole, factor: Whole) -> Option<Whole>
    ensures { result ≡ summed sum (multiplier *ℤ factor) }
{
    match multiplied(multiplier, factor) {
        None => None,
        Some(product) => added(sum, product),
    }
}
