//! Cuts of boxes.

ghost use Rattle.std.specs.Prelude.{◌≡◌, ◌<◌, ◌+◌, ◌∷◌, ◌++◌, length, take, drop, IfOk, OnOk};
ghost use Rattle.worst_inputs.specs.Boxes.{HasPointAtTop, IsCutAt};
ghost use Rattle.worst_inputs.specs.Searches.{seen_box, seen_boxes};
ghost use Rattle.worst_inputs.specs.Made.{HaveRanges};

use crate::Range;
use crate::halves::halves;
use crate::places::first_worst;
use std::alloc::{AllocError, Global};

/// The place of the first box of greatest bound, with the halves of its area.
pub(crate) fn cut(
    alloc: Global,
    boxes: &[(Vec<Range>, u64)],
) -> Result<(usize, Vec<Range>, Vec<Range>), AllocError>
    requires ranges { HaveRanges (seen_boxes boxes.now) }
    requires more { ¬ HasPointAtTop (seen_boxes boxes.now) }
    ensures { IfOk result (λ made. IsCutAt (seen_boxes boxes.now) made.0 made.1.items made.2.items) }
{
    let place = first_worst(boxes);
    let (lower, upper) = halves(alloc, &boxes[place].0)?;
    Ok((place, lower, upper))
}

/// Puts two boxes in the place of one.
pub(crate) fn put(
    boxes: &mut Vec<(Vec<Range>, u64)>,
    place: usize,
    lower: (Vec<Range>, u64),
    upper: (Vec<Range>, u64),
) -> Result<(), AllocError>
    requires { place < length (seen_boxes boxes.old.items) }
    ensures { OnOk result (seen_boxes boxes.new.items
        ≡ take place (seen_boxes boxes.old.items)
        ++ seen_box lower ∷ seen_box upper ∷ drop (place + 1) (seen_boxes boxes.old.items)) }
{
    boxes[place] = lower;
    boxes.insert(place + 1, upper)?;
    Ok(())
}
