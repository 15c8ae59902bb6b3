//! Two recorders side by side.

use domain_core::{Lattice, Outline, Recorder};
use std::alloc::{AllocError, Global};

/// Two recorders side by side. Any number of them is a tree of these.
#[derive(Drop)]
pub struct Both<A, B> {
    pub first: A,
    pub second: B,
}

/// The books of two recorders.
#[derive(Drop)]
pub struct BothBook<P, Q> {
    pub first: P,
    pub second: Q,
}

impl<A: Recorder, B: Recorder> Lattice for Both<A, B> {
    ghost use Rattle.flow_recorders.specs.BothRules.{both_order};
    ghost use Rattle.flow_recorders.specs.BothLaws.{both_is_order};

    ghost order = { both_order A.order B.order };

    ghost is_order = { both_is_order A.order B.order A.is_order B.is_order };

    fn copy(&self, alloc: Global) -> Result<Self, AllocError> {
        let first = self.first.copy(alloc)?;
        let second = self.second.copy(alloc)?;
        Ok(Both { first, second })
    }

    fn join(&self, alloc: Global, other: &Self) -> Result<Self, AllocError> {
        let first = self.first.join(alloc, &other.first)?;
        let second = self.second.join(alloc, &other.second)?;
        Ok(Both { first, second })
    }
}

impl<A: Recorder, B: Recorder> Recorder for Both<A, B> {
    ghost use Rattle.flow_recorders.specs.BothRules.{both_recording};
    ghost use Rattle.flow_recorders.specs.BothLaws.{both_is_recording};

    type Book = BothBook<A::Book, B::Book>;

    ghost recording = { both_recording A.recording B.recording };

    ghost is_recording = { both_is_recording A.order B.order A.recording B.recording A.is_recording B.is_recording };

    fn book(alloc: Global, outline: &Outline) -> Result<Self::Book, AllocError> {
        let first = A::book(alloc, outline)?;
        let second = B::book(alloc, outline)?;
        Ok(BothBook { first, second })
    }

    fn start(alloc: Global, outline: &Outline) -> Result<Self, AllocError> {
        let first = A::start(alloc, outline)?;
        let second = B::start(alloc, outline)?;
        Ok(Both { first, second })
    }

    fn go(
        &mut self,
        alloc: Global,
        outline: &Outline,
        book: &mut Self::Book,
        from: u32,
        to: u32,
    ) -> Result<(), AllocError> {
        self.first.go(alloc, outline, &mut book.first, from, to)?;
        self.second.go(alloc, outline, &mut book.second, from, to)?;
        Ok(())
    }

    fn finish(
        &self,
        alloc: Global,
        outline: &Outline,
        book: &mut Self::Book,
        last: u32,
    ) -> Result<(), AllocError> {
        self.first.finish(alloc, outline, &mut book.first, last)?;
        self.second.finish(alloc, outline, &mut book.second, last)?;
        Ok(())
    }
}
