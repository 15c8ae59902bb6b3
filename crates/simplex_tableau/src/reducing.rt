//! The common divisor of a line by terms, and the line divided by it.

ghost use Rattle.std.specs.Prelude.{◌≡◌, pos, ◌<ℤ◌, IfOk};
ghost use Rattle.simplex_tableau.specs.Reducing.{gcd_from, divided_terms};

use std::alloc::{AllocError, Global};
use whole_numbers::Whole;

/// The greatest common divisor of a number above 0 and the terms' numbers.
#[tactic(auto, using(crate::proofs::Freed::divisor_fits, crate::proofs::Freed::divisor_above_none))]
pub fn common_divisor_of(first: Whole, terms: &[(u32, Whole)]) -> Whole
    requires { pos 0 <ℤ first }
    ensures value { result ≡ gcd_from first terms.now }
    ensures above { pos 0 <ℤ result }
{
    let mut divisor = first;
    let mut rest = terms;
    while let Some((term, others)) = rest.split_first() {
        divisor = divisor.common_divisor(term.1);
        rest = others;
    }
    divisor
}

/// Each number divided by one above 0.
pub fn divided(
    alloc: Global,
    by: Whole,
    terms: &[(u32, Whole)],
) -> Result<Vec<(u32, Whole)>, AllocError>
    requires { pos 0 <ℤ by }
    ensures { IfOk result (λ out. out.items ≡ divided_terms by terms.now) }
{
    let mut out = Vec::new(alloc);
    let mut rest = terms;
    while let Some((term, others)) = rest.split_first() {
        out.push((term.0, term.1.quotient(by)))?;
        rest = others;
    }
    Ok(out)
}
