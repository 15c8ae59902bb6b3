//! What is counted in the executions of scopes.

ghost use Rattle.std.specs.Prelude.{◌≡◌, ℕ, List, IfOk};
ghost use Rattle.domain_core.specs.Outlines.{Outlined, IsOutline, shape_of};
ghost use Rattle.domain_core.specs.Recordings.{IsRecording};
ghost use Rattle.recorder_rules.specs.TotalRules.{span_order};
ghost use Rattle.recorder_rules.specs.TallyRules.{Tally, Ledger, tally_recording};
ghost use Rattle.flow_recorders.specs.TallyKeys.{AreKeys};

use domain_core::Outline;
use std::alloc::{AllocError, Global};

/// Which visits are counted, in the executions of which scopes: at each number a scope and a node that lies
/// in it, or nothing.
pub trait Counted {
    /// What is counted in an outline.
    ghost tally: { Outlined → Tally };

    /// The scope of each number.
    fn scopes(alloc: Global, outline: &Outline) -> Result<Vec<Option<u32>>, AllocError>
        ensures { IfOk result (λ keys. keys.items ≡ (tally outline.now).scopes) };

    /// The node of each number.
    fn nodes(alloc: Global, outline: &Outline) -> Result<Vec<Option<u32>>, AllocError>
        ensures { IfOk result (λ keys. keys.items ≡ (tally outline.now).nodes) };

    ghost are_keys: { (o : Outlined) → IsOutline (shape_of o) → AreKeys o (tally o) };

    ghost is_recording: { IsRecording (List (ℕ × ℕ)) Ledger span_order (tally_recording tally) };
}
