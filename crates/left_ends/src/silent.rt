//! A recorder that keeps nothing.

use domain_core::{Lattice, Outline, Recorder};
use std::alloc::{AllocError, Global};
use std::marker::Model;

/// A recorder that keeps nothing. It is its own book.
#[derive(Drop)]
pub(crate) struct Silent {}

impl Model for Silent {
    ghost Value = { Unit {0} };

    ghost view = { λ _. tt };
}

impl Lattice for Silent {
    ghost use Rattle.left_ends.specs.Silence.{silent_order};
    ghost use Rattle.left_ends.specs.SilenceLaws.{silent_is_order};

    ghost order = { silent_order };

    ghost is_order = { silent_is_order };

    fn copy(&self, _alloc: Global) -> Result<Self, AllocError> {
        Ok(Silent {})
    }

    fn join(&self, _alloc: Global, _other: &Self) -> Result<Self, AllocError> {
        Ok(Silent {})
    }
}

impl Recorder for Silent {
    ghost use Rattle.left_ends.specs.Silence.{silent_recording};
    ghost use Rattle.left_ends.specs.SilenceLaws.{silent_is_recording};

    type Book = Silent;

    ghost recording = { silent_recording };

    ghost is_recording = { silent_is_recording };

    fn book(_alloc: Global, _outline: &Outline) -> Result<Silent, AllocError> {
        Ok(Silent {})
    }

    fn start(_alloc: Global, _outline: &Outline) -> Result<Self, AllocError> {
        Ok(Silent {})
    }

    fn go(
        &mut self,
        _alloc: Global,
        _outline: &Outline,
        _book: &mut Silent,
        _from: u32,
        _to: u32,
    ) -> Result<(), AllocError> {
        Ok(())
    }

    fn finish(
        &self,
        _alloc: Global,
        _outline: &Outline,
        _book: &mut Silent,
        _last: u32,
    ) -> Result<(), AllocError> {
        Ok(())
    }
}
