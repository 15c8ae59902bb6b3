//! Where a text goes.

ghost use Rattle.std.specs.Prelude.{◌≡◌, ◌≤◌};
ghost use Rattle.flow_base.specs.Outside.{next_count};
ghost use Rattle.flow_base.specs.Sinks.{SinkState, IsWritten};

use thiserror::Error;

/// Why a write did not take all that it was given.
#[derive(Clone, Copy, Debug, PartialEq, Eq, Error)]
pub enum WriteError {
    /// The write failed, and a prefix of the bytes was taken.
    #[error("the write failed")]
    Failed,
    /// Memory ran out, and nothing was taken.
    #[error("out of memory")]
    Memory,
}

/// Where a text goes.
///
/// A sink may tell the bytes that it took. Not telling them is always allowed; a sink that tells
/// goes on telling, and one that tells nothing goes on telling nothing.
pub trait Sink {
    /// What contracts see of it.
    ghost state: { Self → SinkState };

    /// How often a write has failed. It stands still at the end of its type. Takes no memory.
    fn faults(&self) -> u64
        ensures { result ≡ (state self.now).faults };

    /// Appends all of the bytes, or says why not. A sink in memory keeps its own allocator.
    fn write_all(&mut self, bytes: &[u8]) -> Result<(), WriteError>
        ensures answer { IsWritten bytes.now (state self.old) result (state self.new) }

        // Each write is counted.
        ensures counted { (state self.new).writes ≡ next_count (state self.old).writes }
        ensures later { (state self.old).faults ≤ (state self.new).faults };
}
