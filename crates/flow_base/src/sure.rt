//! A shelf and a sink in memory that never fail.

ghost use Rattle.std.specs.Prelude.{◌≡◌, [], map, string_bytes, Some, None};
ghost use Rattle.flow_base.specs.Held.{content_of, pairs_of};
ghost use Rattle.flow_base.specs.Sure.{SureFiles, seen_files, SureBytes, seen_bytes};

use crate::{ReadError, Shelf, Sink, WriteError};
use std::alloc::Global;
use std::marker::Model;

/// Files in memory. A name that it was not given is an empty file, so no read fails.
#[derive(Drop)]
pub struct SureShelf {
    files: Vec<(String, Vec<u8>)>,
    reads: u64,
    names: Vec<String>,
}

impl Model for SureShelf {
    ghost use Rattle.std.specs.Prelude.{map, string_bytes};
    ghost use Rattle.flow_base.specs.Held.{pairs_of};
    ghost use Rattle.flow_base.specs.Sure.{SureFiles};

    ghost Value = { SureFiles };

    ghost view = { λ shelf. record { files = pairs_of shelf.files.items; reads = shelf.reads; names = map string_bytes shelf.names.items } };
}

impl SureShelf {
    /// These files, by name. Of equal names the first counts. Takes no memory.
    pub fn new(files: Vec<(String, Vec<u8>)>) -> Self
        ensures { result ≡ record { files = pairs_of files.items; reads = 0; names = [] } }
    {
        let names = Vec::new(*files.allocator());
        SureShelf {
            files,
            reads: 0,
            names,
        }
    }
}

impl Shelf for SureShelf {
    ghost state = { seen_files };

    fn failed(&self) -> Option<&str> {
        None
    }

    fn faults(&self) -> u64 {
        0
    }

    fn read(&mut self, alloc: Global, name: &str, limit: u64) -> Result<Vec<u8>, ReadError> {
        self.reads = self.reads.saturating_add(1);
        let Ok(noted) = String::from_str(alloc, name) else {
            return Err(ReadError::Memory);
        };
        let Ok(()) = self.names.push(noted) else {
            return Err(ReadError::Memory);
        };
        let held = content(&self.files, name);
        if held.len() as u64 > limit {
            return Err(ReadError::TooLong(limit));
        }
        let Ok(bytes) = held.to_vec(alloc) else {
            // Nothing was read, so no name is kept.
            let _noted = self.names.pop();
            return Err(ReadError::Memory);
        };
        Ok(bytes)
    }
}

// The bytes of the first file of this name, or none.
fn content<'a>(files: &'a [(String, Vec<u8>)], name: &str) -> &'a [u8]
    ensures { result.now ≡ content_of (pairs_of files.now) name.now }
{
    let mut rest = files;
    while let Some((first, others)) = rest.split_first() {
        if first.0.as_str() == name {
            return &first.1;
        }
        rest = others;
    }
    &[]
}

/// A sink in memory that never fails.
#[derive(Drop)]
pub struct SureSink {
    taken: Vec<u8>,
    writes: u64,
}

impl Model for SureSink {
    ghost use Rattle.flow_base.specs.Sure.{SureBytes};

    ghost Value = { SureBytes };

    ghost view = { λ sink. record { taken = sink.taken.items; writes = sink.writes } };
}

impl SureSink {
    /// An empty sink. Takes no memory.
    pub fn new(alloc: Global) -> Self
        ensures { result ≡ record { taken = []; writes = 0 } }
    {
        SureSink {
            taken: Vec::new(alloc),
            writes: 0,
        }
    }

    /// What it took. Takes no memory.
    pub fn bytes(&self) -> &[u8]
        ensures { result.now ≡ self.now.taken }
    {
        &self.taken
    }
}

impl Sink for SureSink {
    ghost state = { seen_bytes };

    fn faults(&self) -> u64 {
        0
    }

    fn write_all(&mut self, bytes: &[u8]) -> Result<(), WriteError> {
        self.writes = self.writes.saturating_add(1);
        self.taken
            .extend_from_slice(bytes)
            .map_err(|_| WriteError::Memory)
    }
}
