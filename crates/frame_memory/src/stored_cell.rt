//! The cell that a store leaves.

ghost use Rattle.std.specs.Prelude.{◌≡◌, IfOk};
ghost use Rattle.frame_memory.specs.Places.{known};

use domain_core::Lattice;
use memory_pages::Held;
use pointer_domain::AVal;
use std::alloc::{AllocError, Global};

/// A cell with this value, which is known to hold it.
pub(crate) fn known_cell(alloc: Global, value: &AVal) -> Result<Held, AllocError>
    ensures { IfOk result (λ cell. cell ≡ known value.now) }
{
    let copy = value.copy(alloc)?;
    Ok(Held {
        value: Some(copy),
        u: false,
        x: false,
    })
}
