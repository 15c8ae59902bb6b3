//! Products of which one factor is turned.

ghost use Rattle.std.specs.Prelude.{◌≡◌, ◌*ℤ◌, neg_ℤ};
ghost use Rattle.dual_check.specs.Fitting.{fitting};

use whole_numbers::Whole;

/// The product, where it fits.
#[tactic(auto, using(crate::proofs::FittedLaws::fitted, crate::proofs::FittedLaws::not_fitted))]
fn product(first: Whole, second: Whole) -> Option<Whole>
    ensures { result ≡ fitting (first *ℤ second) }
{
    match first.checked_mul(second) {
        Some(number) => Some(number),
        None => None,
    }
}

/// The first times the second turned, where that fits; also where the second, turned, does not.
#[tactic(auto, using(crate::proofs::TurnedFactors::turned_first, crate::proofs::TurnedFactors::none_turned))]
pub fn turned_product(first: Whole, second: Whole) -> Option<Whole>
    ensures { result ≡ fitting (first *ℤ neg_ℤ second) }
{
    match second.checked_neg() {
        Some(less) => product(first, less),
        None => match first.checked_neg() {
            Some(less) => product(less, second),
            None => None,
        },
    }
}
