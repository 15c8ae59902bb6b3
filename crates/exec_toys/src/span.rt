//! Spans of numbers.

ghost use Rattle.std.specs.Prelude.{◌≡◌};
ghost use Rattle.exec_toys.specs.Charts.{lowered};

use domain_core::Lattice;
use std::alloc::{AllocError, Global};

/// The numbers from the least to the most.
#[derive(Clone, Copy, Debug, PartialEq, Eq, Drop)]
pub struct Span {
    pub least: u32,
    pub most: u32,
}

impl Span {
    /// The numbers that are so much less; 0 where a number is less than that.
    pub fn lowered(self, less: u32) -> Span
        ensures { result ≡ lowered self less }
    {
        Span {
            least: self.least.saturating_sub(less),
            most: self.most.saturating_sub(less),
        }
    }
}

impl Lattice for Span {
    ghost use Rattle.exec_toys.specs.Charts.{span_order};
    ghost use Rattle.exec_toys.specs.ChartLaws.{span_is_order};

    ghost order = { span_order };

    ghost is_order = { span_is_order };

    fn copy(&self, _alloc: Global) -> Result<Self, AllocError> {
        Ok(*self)
    }

    fn join(&self, _alloc: Global, other: &Self) -> Result<Self, AllocError> {
        Ok(Span {
            least: self.least.min(other.least),
            most: self.most.max(other.most),
        })
    }
}
