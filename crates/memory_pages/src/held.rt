//! One cell.

ghost use Rattle.std.specs.Prelude.{◌≡◌, IsTrue, IfOk};

use domain_core::Lattice;
use pointer_domain::AVal;
use std::alloc::{AllocError, Global};

/// A cell: values, if there are some, and two flags. `u`: perhaps some byte has no store. `x`: perhaps every
/// byte has a store and the cell is read from its bytes.
#[derive(Debug, Drop)]
pub struct Held {
    pub value: Option<AVal>,
    pub u: bool,
    pub x: bool,
}

/// A copy of the value, if there is one.
pub fn copied_value(alloc: Global, value: &Option<AVal>) -> Result<Option<AVal>, AllocError>
    ensures { IfOk result (λ copy. copy ≡ value.now) }
{
    match value {
        None => Ok(None),
        Some(value) => Ok(Some(value.copy(alloc)?)),
    }
}

/// Both have the same value, or none.
pub(crate) fn same_value(a: &Option<AVal>, b: &Option<AVal>) -> bool
    ensures { IsTrue result → a.now ≡ b.now }
{
    match (a, b) {
        (None, None) => true,
        (Some(a), Some(b)) => a.is_same(b),
        _ => false,
    }
}

impl Held {
    /// A copy of the cell.
    pub fn copy(&self, alloc: Global) -> Result<Held, AllocError>
        ensures { IfOk result (λ copy. copy ≡ self.now) }
    {
        Ok(Held {
            value: copied_value(alloc, &self.value)?,
            u: self.u,
            x: self.x,
        })
    }
}
