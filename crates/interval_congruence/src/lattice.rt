//! Strided values as a lattice.

use crate::value::Strided;
use domain_core::Lattice;
use std::alloc::{AllocError, Global};

impl Lattice for Strided {
    ghost use Rattle.strided_rules.specs.Domains.{stride_order};
    ghost use Rattle.strided_rules.specs.DomainLaws.{stride_is_order};

    ghost order = { stride_order };

    ghost is_order = { stride_is_order };

    fn copy(&self, _alloc: Global) -> Result<Self, AllocError> {
        Ok(*self)
    }

    fn join(&self, _alloc: Global, other: &Self) -> Result<Self, AllocError> {
        Ok(Strided::join(*self, *other))
    }
}
