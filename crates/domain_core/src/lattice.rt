//! Lattices.

ghost use Rattle.std.specs.Prelude.{◌≡◌, IfOk};
ghost use Rattle.domain_core.specs.Orders.{Order, IsOrder};

use std::alloc::{AllocError, Global};

/// An order on a type, and joins: what is above tells less, and a join is above both sides.
pub trait Lattice: Sized {
    /// Which values are alike, which is above which, and what a join answers.
    ghost order: { Order Self };

    /// An equal value.
    fn copy(&self, alloc: Global) -> Result<Self, AllocError>
        ensures { IfOk result (λ value. value ≡ self.now) };

    /// A value above both.
    fn join(&self, alloc: Global, other: &Self) -> Result<Self, AllocError>
        requires { order.alike self.now other.now }
        ensures { IfOk result (λ value. value ≡ order.joined self.now other.now) };

    ghost is_order: { IsOrder Self order };
}
