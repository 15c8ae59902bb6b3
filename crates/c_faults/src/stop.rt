//! Why a check stops.

ghost use Rattle.std.specs.Prelude.{◌≡◌};
ghost use Rattle.c_faults.specs.declared.stop.Stop.TheVariants as variants;

use c_scopes::Fault;
use std::alloc::AllocError;

/// Why a check stops.
#[derive(Clone, Copy, Debug)]
pub enum Stop {
    /// The first fault.
    Fault(Fault),
    /// Memory ran out.
    Memory,
}

impl From<Fault> for Stop {
    ghost from_gives = { λ fault stop. stop ≡ variants.Fault fault };

    fn from(fault: Fault) -> Self {
        Stop::Fault(fault)
    }
}

impl From<AllocError> for Stop {
    ghost from_gives = { λ _ stop. stop ≡ variants.Memory };

    fn from(_error: AllocError) -> Self {
        Stop::Memory
    }
}
