//! What a search finds.

ghost use Rattle.std.specs.Prelude.{◌≡◌};
ghost use Rattle.worst_inputs.specs.Boxes.{worst_of};
ghost use Rattle.worst_inputs.specs.Searches.{found_of};

use crate::Range;
use crate::places::worst;

/// What a search finds.
#[derive(Drop)]
pub struct Found {
    /// Boxes: the ranges of each, in the order of the rows, with the bound of what its inputs cost.
    pub boxes: Vec<(Vec<Range>, u64)>,
    /// Whether a box of greatest bound is a point, so that some input costs as much.
    pub exact: bool,
}

impl Found {
    /// The greatest bound of a box.
    pub fn worst(&self) -> u64
        ensures { result ≡ worst_of (found_of self.now).boxes }
    {
        worst(&self.boxes)
    }
}
