//! A shelf of files that are opened and read to their end.

ghost use Rattle.std.specs.Prelude.{◌≡◌, ◌≤◌, None, IsErrOf};
ghost use Rattle.flow_base.specs.Outside.{next_count};
ghost use Rattle.flow_base.specs.Shelves.{IsRead};
ghost use Rattle.flow_base.specs.Streams.{IsContent, seen_stream_shelf};

use crate::streams::read_whole;
use crate::{Open, ReadError, Refusal, Shelf};
use std::alloc::Global;
use std::marker::Model;

/// Files that are opened by name and read to their end. It tells the files that what opens them tells.
#[derive(Drop)]
pub struct StreamShelf<O: Open> {
    opener: O,
    reads: u64,
    faults: u64,
    failed: Option<String>,
}

impl<O: Open> Model for StreamShelf<O> {
    ghost use Rattle.std.specs.Prelude.{option_map, string_bytes};
    ghost use Rattle.flow_base.specs.Streams.{OpenedFiles};

    ghost Value = { OpenedFiles O };

    ghost view = { λ shelf. record { opener = shelf.opener; reads = shelf.reads; faults = shelf.faults; failed = option_map string_bytes shelf.failed } };
}

impl<O: Open> StreamShelf<O> {
    /// The files that this opens; no read has failed. Takes no memory.
    pub fn over(opener: O) -> Self
        ensures { result ≡ record { opener = opener; reads = 0; faults = 0; failed = None } }
    {
        StreamShelf {
            opener,
            reads: 0,
            faults: 0,
            failed: None,
        }
    }
}

impl<O: Open> Shelf for StreamShelf<O> {
    ghost state = { seen_stream_shelf O.files };

    fn failed(&self) -> Option<&str> {
        match &self.failed {
            Some(name) => Some(name.as_str()),
            None => None,
        }
    }

    fn faults(&self) -> u64 {
        self.faults
    }

    fn read(&mut self, alloc: Global, name: &str, limit: u64) -> Result<Vec<u8>, ReadError>
        // A read fails only where the file of this name may.
        ensures due { IsErrOf result ReadError.Failed → O.fails self.old.opener name.now }
        ensures same_opener { self.new.opener ≡ self.old.opener }
        // A fault is counted exactly where a read failed.
        ensures fault { IsErrOf result ReadError.Failed → self.new.faults ≡ next_count self.old.faults }
        ensures no_fault { (IsErrOf result ReadError.Failed → ⊥) → self.new.faults ≡ self.old.faults }

        ensures answer { IsRead name.now limit (seen_stream_shelf O.files self.old) result
            (seen_stream_shelf O.files self.new) }
        ensures same_files { (seen_stream_shelf O.files self.new).files ≡ (seen_stream_shelf O.files self.old).files }
        ensures counted { self.new.reads ≡ next_count self.old.reads }
        ensures later { self.old.faults ≤ self.new.faults }
        ensures others { (IsErrOf result ReadError.Failed → ⊥) → self.new.failed ≡ self.old.failed }
    {
        self.reads = self.reads.saturating_add(1);
        // The name is copied first, so that keeping it needs no memory afterwards.
        let Ok(kept) = String::from_str(alloc, name) else {
            return Err(ReadError::Memory);
        };
        match content(&self.opener, alloc, name, limit) {
            Err(ReadError::Failed) => {
                self.faults = self.faults.saturating_add(1);
                self.failed = Some(kept);
                Err(ReadError::Failed)
            }
            other => other,
        }
    }
}

// Opens the file and reads it to its end.
fn content<O: Open>(opener: &O, alloc: Global, name: &str, limit: u64) -> Result<Vec<u8>, ReadError>
    ensures whole { IsContent (O.files opener.now) name.now limit result }
    ensures due { IsErrOf result ReadError.Failed → O.fails opener.now name.now }
{
    match opener.open(name) {
        Ok(source) => read_whole(source, alloc, limit),
        Err(Refusal::Memory) => Err(ReadError::Memory),
        Err(Refusal::Interrupted | Refusal::Failed) => Err(ReadError::Failed),
    }
}
