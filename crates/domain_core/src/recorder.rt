//! Recorders.

ghost use Rattle.std.specs.Prelude.{◌≡◌, ◌<◌, ◌-◌, ◌^◌, length, IfOk, OnOk, Contains};
ghost use Rattle.domain_core.specs.Recordings.{Recording, IsRecording};

use crate::{Lattice, Outline};
use std::alloc::{AllocError, Global};

/// What is kept of the trace of a run that goes on, beside a book of what is over.
///
/// After want of memory the recorder and the book are given up.
pub trait Recorder: Lattice + Drop {
    /// What is collected of all runs.
    type Book: Drop;

    /// Which outlines suit, what is covered, and what each call answers.
    ghost recording: { Recording Self Self.Book };

    /// An empty book of the outline.
    fn book(alloc: Global, outline: &Outline) -> Result<Self::Book, AllocError>
        requires { recording.suits outline.now }
        ensures { IfOk result (λ book. book ≡ recording.first_book outline.now) };

    /// The recorder of the trace of node 0 alone.
    fn start(alloc: Global, outline: &Outline) -> Result<Self, AllocError>
        requires { recording.suits outline.now }
        ensures { IfOk result (λ recorder. recorder ≡ recording.first outline.now) };

    /// Goes on from the node `from`, the newest of the trace, to the node `to`.
    fn go(
        &mut self,
        alloc: Global,
        outline: &Outline,
        book: &mut Self::Book,
        from: u32,
        to: u32,
    ) -> Result<(), AllocError>
        requires suited { recording.suits outline.now }
        requires recorder { recording.is_of outline.now self.old }
        requires book { recording.book_is_of outline.now book.old }
        requires edge { Contains outline.now.edges (from, to) }
        requires node { to < length outline.now.nodes }
        requires room { recording.length_of self.old < 2 ^ 32 - 1 }
        ensures gone { OnOk result (self.new ≡ recording.gone outline.now self.old book.old from to) }
        ensures collected { OnOk result (book.new ≡ recording.gone_book outline.now self.old book.old from to) };

    /// Collects the trace, whose newest node is `last`, as that of a run that is over.
    fn finish(
        &self,
        alloc: Global,
        outline: &Outline,
        book: &mut Self::Book,
        last: u32,
    ) -> Result<(), AllocError>
        requires suited { recording.suits outline.now }
        requires recorder { recording.is_of outline.now self.now }
        requires book { recording.book_is_of outline.now book.old }
        requires node { last < length outline.now.nodes }
        ensures { OnOk result (book.new ≡ recording.finished outline.now self.now book.old last) };

    ghost is_recording: { IsRecording Self Self.Book Self.order recording };
}
