//! Where the greatest stand.

ghost use Rattle.std.specs.Prelude.{◌≡◌, ◌<◌, ◌↔◌, length, IsTrue};
ghost use Rattle.std.specs.List.{All};
ghost use Rattle.worst_inputs.specs.Most.{IsFirstAt};
ghost use Rattle.worst_inputs.specs.Areas.{width_of, IsRange, IsPoint};
ghost use Rattle.worst_inputs.specs.Boxes.{bound_of, worst_of, HasPoint, HasPointAtTop};
ghost use Rattle.worst_inputs.specs.Searches.{seen_boxes};

use crate::Range;

/// How far its high is above its low.
fn width(range: &Range) -> u128
    requires { IsRange range.now }
    ensures { result ≡ width_of range.now }
{
    (range.high - range.low).unsigned_abs()
}

/// The place of the widest range, the first of equals.
pub(crate) fn widest(area: &[Range]) -> usize
    requires ranges { All IsRange area.now }
    requires some { 0 < length area.now }
    ensures { IsFirstAt width_of area.now result }
{
    let mut most = 0;
    for range in area {
        most = width(range).max(most);
    }
    for (place, range) in area.iter().enumerate() {
        if width(range) == most {
            return place;
        }
    }
    0
}

/// The greatest bound.
pub(crate) fn worst(boxes: &[(Vec<Range>, u64)]) -> u64
    ensures { result ≡ worst_of (seen_boxes boxes.now) }
{
    let mut most = 0;
    for pair in boxes {
        most = pair.1.max(most);
    }
    most
}

// The place of the first box of this bound.
fn first_of(boxes: &[(Vec<Range>, u64)], worst: u64) -> usize
    requires worst { worst ≡ worst_of (seen_boxes boxes.now) }
    requires some { 0 < length boxes.now }
    ensures { IsFirstAt bound_of (seen_boxes boxes.now) result }
{
    for (place, pair) in boxes.iter().enumerate() {
        if pair.1 == worst {
            return place;
        }
    }
    0
}

/// The place of the box of greatest bound, the first of equals.
pub(crate) fn first_worst(boxes: &[(Vec<Range>, u64)]) -> usize
    requires { 0 < length boxes.now }
    ensures { IsFirstAt bound_of (seen_boxes boxes.now) result }
{
    first_of(boxes, worst(boxes))
}

/// Whether every low equals its high.
fn is_point(area: &[Range]) -> bool
    ensures { IsTrue result ↔ IsPoint area.now }
{
    area.iter().all(|range| range.low == range.high)
}

// Whether some box of this bound is a point.
fn has_point(boxes: &[(Vec<Range>, u64)], worst: u64) -> bool
    ensures { IsTrue result ↔ HasPoint (seen_boxes boxes.now) worst }
{
    for pair in boxes {
        if pair.1 == worst && is_point(&pair.0) {
            return true;
        }
    }
    false
}

/// Whether some box of greatest bound is a point.
pub(crate) fn has_point_at_top(boxes: &[(Vec<Range>, u64)]) -> bool
    ensures { IsTrue result ↔ HasPointAtTop (seen_boxes boxes.now) }
{
    has_point(boxes, worst(boxes))
}
