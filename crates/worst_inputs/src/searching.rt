//! The search.

ghost use Rattle.std.specs.Prelude.{◌≡◌, ◌<◌, IfOk, IfErr, OnOk};
ghost use Rattle.std.specs.List.{All};
ghost use Rattle.worst_inputs.specs.declared.bounder.Bounded.TheVariants.{At, Left};
ghost use Rattle.worst_inputs.specs.Areas.{IsRange};
ghost use Rattle.worst_inputs.specs.Boxes.{HasPointAtTop, IsSplit};
ghost use Rattle.worst_inputs.specs.Searches.{seen_boxes, found_of, IsSearched, IsLeftOf, IsStoppedBy, IsFaultOf};
ghost use Rattle.worst_inputs.specs.Promises.{Bounds};
ghost use Rattle.worst_inputs.specs.Made.{AreMade};

use crate::cuts::{cut, put};
use crate::places::has_point_at_top;
use crate::{Bounded, Bounder, Found, Range, SearchFault};
use std::alloc::Global;

// The bound, or where there is none: the answer is one of these two, and takes no memory.
fn told(bounded: Bounded) -> Result<u64, u32>
    ensures bound { IfOk result (λ bound. bounded ≡ At bound) }
    ensures left { IfErr result (λ scope. bounded ≡ Left scope) }
{
    match bounded {
        Bounded::At(bound) => Ok(bound),
        Bounded::Left(scope) => Err(scope),
    }
}

/// The area with its bound.
fn bounded<B: Bounder>(
    alloc: Global,
    bounder: &mut B,
    area: Vec<Range>,
) -> Result<(Vec<Range>, u64), SearchFault>
    requires { (B.bounding (B.named bounder.old)).suits area.items }
    ensures area { IfOk result (λ pair. pair.0.items ≡ area.items) }
    ensures at { IfOk result (λ pair. (B.bounding (B.named bounder.old)).answers area.items (At pair.1)) }
    ensures left { IfErr result (IsLeftOf (B.bounding (B.named bounder.old)).answers area.items) }
    ensures unchanged { B.named bounder.new ≡ B.named bounder.old }
{
    match told(bounder.bound(alloc, &area)?) {
        Ok(bound) => Ok((area, bound)),
        Err(scope) => Err(SearchFault::Left(scope)),
    }
}

/// Puts the halves of the first box of greatest bound in its place.
fn split<B: Bounder>(
    alloc: Global,
    bounder: &mut B,
    boxes: &mut Vec<(Vec<Range>, u64)>,
) -> Result<(), SearchFault>
    requires made { AreMade (B.bounding (B.named bounder.old)) (seen_boxes boxes.old.items) }
    requires more { ¬ HasPointAtTop (seen_boxes boxes.old.items) }
    ensures split { OnOk result (IsSplit (B.bounding (B.named bounder.old)).answers
        (seen_boxes boxes.old.items) (seen_boxes boxes.new.items)) }
    ensures stopped { IfErr result (IsStoppedBy (B.bounding (B.named bounder.old)).answers
        (seen_boxes boxes.old.items)) }
    ensures unchanged { B.named bounder.new ≡ B.named bounder.old }
{
    let (place, lower, upper) = cut(alloc, boxes)?;
    let lower = bounded(alloc, bounder, lower)?;
    let upper = bounded(alloc, bounder, upper)?;
    put(boxes, place, lower, upper)?;
    Ok(())
}

/// Boxes of inputs inside the ranges, each with a bound of what its inputs cost.
///
/// Begins with the one box of the ranges. A split takes the first box of greatest bound, halves it at
/// the middle of its widest range, the first of equals, and puts the lower half and the upper half in
/// its place. Ends where some box of greatest bound is a point, or after so many splits. `Left`
/// exactly where a box has no bound, with the first that is made, the lower half first. Makes at most
/// 2 * splits + 1 calls of `bound`, and looks at all boxes before each split.
pub fn search<B: Bounder>(
    alloc: Global,
    bounder: &mut B,
    ranges: &[Range],
    splits: u32,
) -> Result<Found, SearchFault>
    requires suits { (B.bounding (B.named bounder.old)).suits ranges.now }
    requires ranges { All IsRange ranges.now }

    // The boxes where splitting ends, and whether one of greatest bound is a point.
    ensures found { IfOk result (λ found. IsSearched (B.bounding (B.named bounder.old)).answers
        ranges.now splits (found_of found)) }

    // They cover the ranges, each input inside a box costs at most its bound, and an exact greatest bound is the
    // greatest cost.
    ensures bounds { IfOk result (λ found. Bounds (B.bounding (B.named bounder.old)).costs ranges.now
        (found_of found)) }

    // The first box that is left.
    ensures fault { IfErr result (IsFaultOf (B.bounding (B.named bounder.old)).answers ranges.now splits) }

    ensures unchanged { B.named bounder.new ≡ B.named bounder.old }
{
    let area = Vec::from_slice(alloc, ranges)?;
    let first = bounded(alloc, bounder, area)?;
    let mut boxes = Vec::new(alloc);
    boxes.push(first)?;
    for made in 0..splits {
        if has_point_at_top(&boxes) {
            return Ok(Found { boxes, exact: true });
        }
        split(alloc, bounder, &mut boxes)?;
    }
    let exact = has_point_at_top(&boxes);
    Ok(Found { boxes, exact })
}
