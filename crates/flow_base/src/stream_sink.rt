//! A sink over an output that takes bytes piece by piece.

ghost use Rattle.std.specs.Prelude.{◌≡◌, ◌≤◌, IsErrOf};
ghost use Rattle.flow_base.specs.Outside.{next_count};
ghost use Rattle.flow_base.specs.Sinks.{IsWritten};
ghost use Rattle.flow_base.specs.Streams.{seen_stream_sink};

use crate::streams::write_whole;
use crate::{Output, Sink, WriteError};
use std::marker::Model;

/// What an output takes, piece by piece. It tells what that tells, and never answers want of memory.
#[derive(Drop)]
pub struct StreamSink<W: Output> {
    output: W,
    writes: u64,
    faults: u64,
}

impl<W: Output> Model for StreamSink<W> {
    ghost use Rattle.flow_base.specs.Streams.{PiecesTaken};

    ghost Value = { PiecesTaken W };

    ghost view = { λ sink. record { output = sink.output; writes = sink.writes; faults = sink.faults } };
}

impl<W: Output> StreamSink<W> {
    /// A sink over this output; no write has failed. Takes no memory.
    pub fn over(output: W) -> Self
        ensures { result ≡ record { output = output; writes = 0; faults = 0 } }
    {
        StreamSink {
            output,
            writes: 0,
            faults: 0,
        }
    }
}

impl<W: Output> Sink for StreamSink<W> {
    ghost state = { seen_stream_sink W.taken };

    fn faults(&self) -> u64 {
        self.faults
    }

    fn write_all(&mut self, bytes: &[u8]) -> Result<(), WriteError>
        ensures never_memory { IsErrOf result WriteError.Memory → ⊥ }
        // A write fails only where one to the output may.
        ensures due { IsErrOf result WriteError.Failed → W.fails self.old.output }
        // A fault is counted exactly where a write failed.
        ensures fault { IsErrOf result WriteError.Failed → self.new.faults ≡ next_count self.old.faults }
        ensures no_fault { (IsErrOf result WriteError.Failed → ⊥) → self.new.faults ≡ self.old.faults }

        ensures answer { IsWritten bytes.now (seen_stream_sink W.taken self.old) result
            (seen_stream_sink W.taken self.new) }
        ensures counted { self.new.writes ≡ next_count self.old.writes }
        ensures later { self.old.faults ≤ self.new.faults }
    {
        self.writes = self.writes.saturating_add(1);
        let written = write_whole(&mut self.output, bytes);
        if written.is_err() {
            self.faults = self.faults.saturating_add(1);
        }
        written
    }
}
