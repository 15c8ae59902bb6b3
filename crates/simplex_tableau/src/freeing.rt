//! Terms freed of a place by those of a row that has a number above 0 there.

ghost use Rattle.std.specs.Prelude.{◌≡◌, ◌≢◌, pos, ◌<ℤ◌, IfOk, MatchOption};
ghost use Rattle.ipet_rows.specs.Sums.{coefficient, IsAscending};
ghost use Rattle.simplex_tableau.specs.Shown.{IsFreed, IsFreedWide};

use crate::merging::mixed;
use crate::reading::number_in;
use crate::reducing::{common_divisor_of, divided};
use std::alloc::{AllocError, Global};
use whole_numbers::Whole;

/// The line's terms freed of the place by the row's, divided by their common divisor. `None` exactly where
/// a number on the way is wide.
///
/// At the place `own` the line has a number above 0 and the row none, so some number stays.
#[tactic(auto, using(crate::proofs::Freed::divisor_fits, crate::proofs::Freed::divisor_above_none))]
pub fn freed_terms(
    alloc: Global,
    own: u32,
    place: u32,
    row: &[(u32, Whole)],
    line: &[(u32, Whole)],
) -> Result<Option<Vec<(u32, Whole)>>, AllocError>
    requires row { IsAscending row.now }
    requires line { IsAscending line.now }
    requires place { pos 0 <ℤ coefficient row.now place }
    requires here { coefficient line.now place ≢ pos 0 }
    requires own { pos 0 <ℤ coefficient line.now own }
    requires apart { coefficient row.now own ≡ pos 0 }
    ensures { IfOk result
        (λ answer. MatchOption answer (IsFreedWide place row.now line.now)
        (λ out. IsFreed place row.now line.now out.items)) }
{
    let there = number_in(row, place);
    let here = number_in(line, place);
    let divisor = there.common_divisor(here);
    let (a, b) = (there.quotient(divisor), here.quotient(divisor));
    let Some(mixture) = mixed(alloc, a, b, line, row)? else {
        return Ok(None);
    };
    let first = number_in(mixture.as_slice(), own);
    let by = common_divisor_of(first, mixture.as_slice());
    Ok(Some(divided(alloc, by, mixture.as_slice())?))
}
