//! How often an execution of a scope visits its header.

ghost use Rattle.std.specs.Prelude.{◌≡◌, ◌<◌, length, slice_get, Some};

use crate::begun::{each_header, each_scope};
use crate::counted::Counted;
use crate::visits::{Visits, VisitsBook};
use domain_core::Outline;
use std::alloc::{AllocError, Global};

/// At each scope its header.
#[derive(Drop)]
pub struct EachHeader;

impl Counted for EachHeader {
    ghost use Rattle.recorder_rules.specs.LoopRules.{loop_tally};
    ghost use Rattle.recorder_rules.specs.LoopRuleLaws.{loop_is_recording};
    ghost use Rattle.flow_recorders.specs.TallyKeyLaws.{loop_keys};

    ghost tally = { loop_tally };

    ghost are_keys = { loop_keys };

    ghost is_recording = { loop_is_recording };

    fn scopes(alloc: Global, outline: &Outline) -> Result<Vec<Option<u32>>, AllocError> {
        each_scope(alloc, outline)
    }

    fn nodes(alloc: Global, outline: &Outline) -> Result<Vec<Option<u32>>, AllocError> {
        each_header(alloc, outline)
    }
}

/// For each scope the least and the greatest number of visits of its header in the execution that
/// is not over.
pub type Loops = Visits<EachHeader>;

/// For each scope the least and the greatest number of visits of its header in the executions that
/// are over.
pub type LoopsBook = VisitsBook<EachHeader>;

impl VisitsBook<EachHeader> {
    /// The least and the greatest number of visits of the scope's header in an execution that was
    /// collected. `None` exactly where no execution was.
    pub fn loop_of(&self, scope: u32) -> Option<(u32, u32)>
        requires { scope < length self.now.spreads }
        ensures { slice_get self.now.spreads scope ≡ Some result }
    {
        self.spread_of(scope)
    }
}
