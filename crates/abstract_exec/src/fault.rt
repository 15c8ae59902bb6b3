//! Refusals.

use std::alloc::AllocError;

/// Why an event was not applied.
#[derive(Clone, Copy, Debug, PartialEq, Eq, Drop)]
pub enum ExecFault {
    /// The place of a step is missing, or the places of a merge are not two, in order and of one
    /// position. The pool is unchanged.
    BadEvent,
    /// Memory ran out, or a step would leave more than 4,294,967,295 places. The pool is given up.
    Memory,
}

impl From<AllocError> for ExecFault {
    ghost use Rattle.std.specs.Prelude.{◌≡◌};
    ghost use Rattle.abstract_exec.specs.declared.fault.ExecFault.{ExecFault};
    ghost use Rattle.abstract_exec.specs.declared.fault.ExecFault.TheVariants.{Memory};

    ghost from_gives = { λ _ fault. fault ≡ Memory };

    fn from(_error: AllocError) -> ExecFault {
        ExecFault::Memory
    }
}
