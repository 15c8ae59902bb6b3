//! The memory of the ends that were seen.

ghost use Rattle.std.specs.Prelude.{IfOk};
ghost use Rattle.alf_check.specs.CheckedPrograms.{CheckedParts};
ghost use Rattle.left_ends.specs.Seen.{AreBothEnds, AreEnds, StandsForAll};

use abstract_memory::AMem;
use domain_core::Lattice;
use std::alloc::{AllocError, Global};

/// The two joined, where there are two.
pub(crate) fn both<'a>(
    alloc: Global,
    ends: Option<AMem<'a>>,
    left: Option<AMem<'a>>,
) -> Result<Option<AMem<'a>>, AllocError>
    requires { AreBothEnds ends left }
    ensures are { (checked : CheckedParts) → AreEnds checked ends.entry → AreEnds checked left.entry
        → IfOk result (AreEnds checked) }
    ensures first { IfOk result (StandsForAll ends.entry) }
    ensures second { IfOk result (StandsForAll left.entry) }
{
    match (ends, left) {
        (Some(first), Some(second)) => {
            let all = first.join(alloc, &second)?;
            Ok(Some(all))
        }
        (Some(first), None) => Ok(Some(first)),
        (None, second) => Ok(second),
    }
}
