//! Terms turned.

ghost use Rattle.std.specs.Prelude.{◌≡◌, true, false, neg_ℤ, IfOk, MatchOption};
ghost use Rattle.dual_check.specs.Fitting.{fitting};
ghost use Rattle.simplex_rules.specs.Tableaus.{turned};
ghost use Rattle.simplex_tableau.specs.Turning.{turned_fits};

use std::alloc::{AllocError, Global};
use whole_numbers::Whole;

/// The number turned, where that fits.
#[tactic(auto, using(crate::proofs::FittedLaws::fitted, crate::proofs::FittedLaws::not_fitted))]
fn turned_number(number: Whole) -> Option<Whole>
    ensures { result ≡ fitting (neg_ℤ number) }
{
    match number.checked_neg() {
        Some(less) => Some(less),
        None => None,
    }
}

/// Each number turned. `None` exactly where one does not fit then.
#[tactic(auto, using(crate::proofs::Turned::number_turned, crate::proofs::Turned::number_not_turned))]
pub fn turned_terms(
    alloc: Global,
    terms: &[(u32, Whole)],
) -> Result<Option<Vec<(u32, Whole)>>, AllocError>
    ensures { IfOk result
        (λ answer. MatchOption answer (turned_fits terms.now ≡ false)
        (λ out. (out.items ≡ turned terms.now) × (turned_fits terms.now ≡ true))) }
{
    let mut out = Vec::new(alloc);
    let mut rest = terms;
    while let Some((term, others)) = rest.split_first() {
        let Some(number) = turned_number(term.1) else {
            return Ok(None);
        };
        out.push((term.0, number))?;
        rest = others;
    }
    Ok(Some(out))
}
