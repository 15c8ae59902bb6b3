//! Mixtures of two lines by terms: a merge, a place a turn.

ghost use Rattle.std.specs.Prelude.{◌≡◌, ◌-ℤ◌, ◌*ℤ◌, IfOk, OnOk, MatchOption};
ghost use Rattle.ipet_rows.specs.Rows.{vanishes};
ghost use Rattle.ipet_rows.specs.Sums.{IsAscending};
ghost use Rattle.dual_check.specs.Fitting.{fitting};
ghost use Rattle.simplex_tableau.specs.Merging.{mixed_number, head_number, after_of, next_of, with_number, IsMixture};
ghost use Rattle.simplex_tableau.specs.Merging.{IsTooWide};

use std::alloc::{AllocError, Global};
use whole_numbers::Whole;

/// The product, where it fits.
#[tactic(auto, using(crate::proofs::FittedLaws::fitted, crate::proofs::FittedLaws::not_fitted))]
fn product(first: Whole, second: Whole) -> Option<Whole>
    ensures { result ≡ fitting (first *ℤ second) }
{
    match first.checked_mul(second) {
        Some(number) => Some(number),
        None => None,
    }
}

/// The difference, where it fits.
#[tactic(auto, using(crate::proofs::FittedLaws::fitted, crate::proofs::FittedLaws::not_fitted))]
fn difference(first: Whole, second: Whole) -> Option<Whole>
    ensures { result ≡ fitting (first -ℤ second) }
{
    match first.checked_sub(second) {
        Some(number) => Some(number),
        None => None,
    }
}

/// The number of the mixture, where both products and the difference fit.
fn number_of(a: Whole, b: Whole, x: Whole, y: Whole) -> Option<Whole>
    ensures { result ≡ mixed_number a b x y }
{
    let Some(first) = product(a, x) else {
        return None;
    };
    let Some(second) = product(b, y) else {
        return None;
    };
    difference(first, second)
}

/// The number of the first term, if it is at the place.
fn first_number(terms: &[(u32, Whole)], place: u32) -> Whole
    ensures { result ≡ head_number terms.now place }
{
    match terms.split_first() {
        None => Whole::of(0),
        Some((term, _)) => {
            if term.0 == place {
                term.1
            } else {
                Whole::of(0)
            }
        }
    }
}

/// The terms after the place.
fn after(terms: &[(u32, Whole)], place: u32) -> &[(u32, Whole)]
    ensures { result.now ≡ after_of terms.now place }
{
    match terms.split_first() {
        None => terms,
        Some((term, others)) => { if term.0 == place { others } else { terms } }
    }
}

/// The next place that one of the two has.
fn next_place(f: &[(u32, Whole)], h: &[(u32, Whole)]) -> Option<u32>
    ensures { result ≡ next_of f.now h.now }
{
    match (f.split_first(), h.split_first()) {
        (None, None) => None,
        (None, Some((second, _))) => Some(second.0),
        (Some((first, _)), None) => Some(first.0),
        (Some((first, _)), Some((second, _))) => {
            if first.0 <= second.0 {
                Some(first.0)
            } else {
                Some(second.0)
            }
        }
    }
}

/// It is 0.
fn is_zero(number: Whole) -> bool
    ensures { result ≡ vanishes number }
{
    let zero = Whole::of(0);
    number.at_most(zero) && zero.at_most(number)
}

/// The number as a further term, if it is not 0.
fn push_number(out: &mut Vec<(u32, Whole)>, place: u32, number: Whole) -> Result<(), AllocError>
    ensures { OnOk result (out.new.items ≡ with_number out.old.items place number) }
{
    if is_zero(number) {
        return Ok(());
    }
    out.push((place, number))?;
    Ok(())
}

/// `a` times the first line less `b` times the second, by ascending place. `None` exactly where a product
/// or a difference is wide.
pub fn mixed(
    alloc: Global,
    a: Whole,
    b: Whole,
    f: &[(u32, Whole)],
    h: &[(u32, Whole)],
) -> Result<Option<Vec<(u32, Whole)>>, AllocError>
    requires f { IsAscending f.now }
    requires h { IsAscending h.now }
    ensures { IfOk result
        (λ answer. MatchOption answer (IsTooWide a b f.now h.now) (λ out. IsMixture a b f.now h.now out.items)) }
{
    let mut out = Vec::new(alloc);
    let mut first = f;
    let mut second = h;
    while let Some(place) = next_place(first, second) {
        let (x, y) = (first_number(first, place), first_number(second, place));
        let Some(number) = number_of(a, b, x, y) else {
            return Ok(None);
        };
        push_number(&mut out, place, number)?;
        first = after(first, place);
        second = after(second, place);
    }
    Ok(Some(out))
}
