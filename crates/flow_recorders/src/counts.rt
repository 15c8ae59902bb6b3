//! How often an execution of a loop visits its other nodes.

ghost use Rattle.std.specs.Prelude.{◌≡◌, ◌<◌, length, slice_get, Some};

use crate::begun::{counted_nodes, counted_scopes};
use crate::counted::Counted;
use crate::visits::{Visits, VisitsBook};
use domain_core::Outline;
use std::alloc::{AllocError, Global};

/// At each node that is not the header of its scope, where that scope is a loop, the node.
#[derive(Drop)]
pub struct OtherNodes;

impl Counted for OtherNodes {
    ghost use Rattle.recorder_rules.specs.LoopRules.{count_tally};
    ghost use Rattle.recorder_rules.specs.LoopRuleLaws.{count_is_recording};
    ghost use Rattle.flow_recorders.specs.TallyKeyLaws.{count_keys};

    ghost tally = { count_tally };

    ghost are_keys = { count_keys };

    ghost is_recording = { count_is_recording };

    fn scopes(alloc: Global, outline: &Outline) -> Result<Vec<Option<u32>>, AllocError> {
        counted_scopes(alloc, outline)
    }

    fn nodes(alloc: Global, outline: &Outline) -> Result<Vec<Option<u32>>, AllocError> {
        counted_nodes(alloc, outline)
    }
}

/// For each node that is not the header of its scope, where that scope is a loop, the least and the
/// greatest number of its visits in the execution of that scope that is not over.
pub type Counts = Visits<OtherNodes>;

/// For each of these nodes the least and the greatest number of its visits in the executions of its
/// scope that are over.
pub type CountsBook = VisitsBook<OtherNodes>;

impl VisitsBook<OtherNodes> {
    /// The least and the greatest number of visits of the node in an execution of its scope that was
    /// collected. `None` exactly where nothing was collected for it: its scope is no loop, the node is
    /// the header, or no execution was collected.
    pub fn count_of(&self, node: u32) -> Option<(u32, u32)>
        requires { node < length self.now.spreads }
        ensures { slice_get self.now.spreads node ≡ Some result }
    {
        self.spread_of(node)
    }
}
