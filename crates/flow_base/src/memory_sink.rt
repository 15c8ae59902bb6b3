//! A sink in memory, with writes that fail as they are told to.

ghost use Rattle.std.specs.Prelude.{◌≡◌, ◌≤◌, [], Some, None, IsNone, IfSome, IsErrOf, length, take};
ghost use Rattle.flow_base.specs.Outside.{next_count};
ghost use Rattle.flow_base.specs.Sinks.{IsWritten};
ghost use Rattle.flow_base.specs.MemorySink.{HeldSink, seen_sink, prefix_before_fault, TakesPrefix};

use crate::{Sink, WriteError};
use std::alloc::Global;
use std::marker::Model;

/// A sink in memory, and the writes that are to fail.
///
/// A write that is to fail takes so many bytes first, at most all. One that finds no memory takes
/// none.
#[derive(Drop)]
pub struct MemorySink {
    taken: Vec<u8>,
    failing: Vec<(u64, u64)>,
    writes: u64,
    faults: u64,
}

impl Model for MemorySink {
    ghost use Rattle.flow_base.specs.MemorySink.{HeldSink};

    ghost Value = { HeldSink };

    ghost view = { λ sink. record { taken = sink.taken.items; failing = sink.failing.items; writes = sink.writes; faults = sink.faults } };
}

impl MemorySink {
    /// An empty sink. `failing` gives for each write that fails its number, from 0, and how many
    /// bytes it takes first; of equal numbers the first counts. Takes no memory.
    pub fn new(alloc: Global, failing: Vec<(u64, u64)>) -> Self
        ensures { result ≡ record { taken = []; failing = failing.items; writes = 0; faults = 0 } }
    {
        MemorySink {
            taken: Vec::new(alloc),
            failing,
            writes: 0,
            faults: 0,
        }
    }

    /// What it took. Takes no memory.
    pub fn bytes(&self) -> &[u8]
        ensures { result.now ≡ self.now.taken }
    {
        &self.taken
    }
}

impl Sink for MemorySink {
    ghost state = { seen_sink };

    fn faults(&self) -> u64 {
        self.faults
    }

    fn write_all(&mut self, bytes: &[u8]) -> Result<(), WriteError>
        // A write fails exactly where it is listed, and then took exactly that prefix.
        ensures listed { IfSome (prefix_before_fault self.old.failing self.old.writes)
            (λ count. TakesPrefix result self.old.taken self.new.taken bytes.now count) }
        ensures only_listed { IsErrOf result WriteError.Failed
            → IsNone (prefix_before_fault self.old.failing self.old.writes) → ⊥ }
        // A fault is counted exactly where a write failed.
        ensures fault { IsErrOf result WriteError.Failed → self.new.faults ≡ next_count self.old.faults }
        ensures no_fault { (IsErrOf result WriteError.Failed → ⊥) → self.new.faults ≡ self.old.faults }
        ensures same_list { self.new.failing ≡ self.old.failing }

        ensures answer { IsWritten bytes.now (seen_sink self.old) result (seen_sink self.new) }
        ensures counted { self.new.writes ≡ next_count self.old.writes }
        ensures later { self.old.faults ≤ self.new.faults }
    {
        let call = self.writes;
        self.writes = self.writes.saturating_add(1);
        let Some(count) = taken_before_fault(&self.failing, call) else {
            return match self.taken.extend_from_slice(bytes) {
                Ok(()) => Ok(()),
                Err(_) => Err(WriteError::Memory),
            };
        };
        let (prefix, _) = bytes.split_at(prefix_length(bytes, count));
        let Ok(()) = self.taken.extend_from_slice(prefix) else {
            return Err(WriteError::Memory);
        };
        self.faults = self.faults.saturating_add(1);
        Err(WriteError::Failed)
    }
}

// So many bytes, at most all.
fn prefix_length(bytes: &[u8], count: u64) -> usize
    ensures within { result ≤ length bytes.now }
    ensures prefix { take result bytes.now ≡ take count bytes.now }
{
    if count < bytes.len() as u64 {
        count as usize
    } else {
        bytes.len()
    }
}

// How many bytes the write of this number takes before it fails, where it is to fail.
fn taken_before_fault(failing: &[(u64, u64)], call: u64) -> Option<u64>
    ensures { result ≡ prefix_before_fault failing.now call }
{
    let mut rest = failing;
    while let Some((first, others)) = rest.split_first() {
        if first.0 == call {
            return Some(first.1);
        }
        rest = others;
    }
    None
}
