//! Files in memory, with reads that fail as they are told to.

ghost use Rattle.std.specs.Prelude.{◌≡◌, ◌≤◌, ◌==◌, [], map, Some, None, IsNone, IfSome, IsErrOf, IsTrue, string_bytes};
ghost use Rattle.std.specs.Prelude.{option_map};
ghost use Rattle.std.specs.List.{list_any};
ghost use Rattle.flow_base.specs.Outside.{next_count};
ghost use Rattle.flow_base.specs.Shelves.{IsRead};
ghost use Rattle.flow_base.specs.Held.{found_in, pairs_of};
ghost use Rattle.flow_base.specs.MemoryShelf.{HeldShelf, seen_shelf, is_due_to_fail, FailsUnlessMemory};

use crate::{ReadError, Shelf};
use std::alloc::Global;
use std::marker::Model;

/// Files in memory, and the reads that are to fail.
///
/// A name that it does not hold is a failed read. A read that finds no memory counts as one, and
/// its name is not kept.
#[derive(Drop)]
pub struct MemoryShelf {
    files: Vec<(String, Vec<u8>)>,
    failing: Vec<u64>,
    reads: u64,
    names: Vec<String>,
    faults: u64,
    failed: Option<String>,
}

impl Model for MemoryShelf {
    ghost use Rattle.std.specs.Prelude.{map, string_bytes, option_map};
    ghost use Rattle.flow_base.specs.Held.{pairs_of};
    ghost use Rattle.flow_base.specs.MemoryShelf.{HeldShelf};

    ghost Value = { HeldShelf };

    ghost view = { λ shelf. record {
      files = pairs_of shelf.files.items;
      failing = shelf.failing.items;
      reads = shelf.reads;
      names = map string_bytes shelf.names.items;
      faults = shelf.faults;
      failed = option_map string_bytes shelf.failed;
    } };
}

impl MemoryShelf {
    /// These files, by name; of equal names the first counts. `failing` lists the numbers of the
    /// reads that fail, from 0. Takes no memory.
    pub fn new(files: Vec<(String, Vec<u8>)>, failing: Vec<u64>) -> Self
        ensures { result
            ≡ record {
              files = pairs_of files.items;
              failing = failing.items;
              reads = 0;
              names = [];
              faults = 0;
              failed = None;
            } }
    {
        let names = Vec::new(*files.allocator());
        MemoryShelf {
            files,
            failing,
            reads: 0,
            names,
            faults: 0,
            failed: None,
        }
    }

    // Counts a read that failed, and keeps its name.
    fn fail(&mut self, name: String) -> ReadError
        ensures error { result ≡ ReadError.Failed }
        ensures later { self.old.faults ≤ self.new.faults }
        ensures state { self.new
            ≡ record self.old { faults = next_count self.old.faults; failed = Some (string_bytes name) } }
    {
        self.faults = self.faults.saturating_add(1);
        self.failed = Some(name);
        ReadError::Failed
    }
}

impl Shelf for MemoryShelf {
    ghost state = { seen_shelf };

    fn failed(&self) -> Option<&str> {
        match &self.failed {
            Some(name) => Some(name.as_str()),
            None => None,
        }
    }

    fn faults(&self) -> u64 {
        self.faults
    }

    fn read(&mut self, alloc: Global, name: &str, limit: u64) -> Result<Vec<u8>, ReadError>
        // A read fails exactly where it is listed or the name is not held, unless memory runs out.
        ensures due { IsTrue (is_due_to_fail self.old name.now) → FailsUnlessMemory result }
        ensures only_due { IsErrOf result ReadError.Failed → IsTrue (is_due_to_fail self.old name.now) }
        // A fault is counted exactly where a read failed.
        ensures fault { IsErrOf result ReadError.Failed → self.new.faults ≡ next_count self.old.faults }
        ensures no_fault { (IsErrOf result ReadError.Failed → ⊥) → self.new.faults ≡ self.old.faults }
        ensures same_list { self.new.failing ≡ self.old.failing }

        ensures answer { IsRead name.now limit (seen_shelf self.old) result (seen_shelf self.new) }
        ensures same_files { Some (found_in self.new.files) ≡ Some (found_in self.old.files) }
        ensures counted { self.new.reads ≡ next_count self.old.reads }
        ensures later { self.old.faults ≤ self.new.faults }
        ensures others { (IsErrOf result ReadError.Failed → ⊥) → self.new.failed ≡ self.old.failed }
    {
        let call = self.reads;
        self.reads = self.reads.saturating_add(1);
        // The name is copied first, so that keeping it needs no memory afterwards.
        let Ok(kept) = String::from_str(alloc, name) else {
            return Err(ReadError::Memory);
        };
        let Ok(noted) = String::from_str(alloc, name) else {
            return Err(ReadError::Memory);
        };
        let Ok(()) = self.names.push(noted) else {
            return Err(ReadError::Memory);
        };
        if is_listed(&self.failing, call) {
            return Err(self.fail(kept));
        }
        let Some(held) = found(&self.files, name) else {
            return Err(self.fail(kept));
        };
        if held.len() as u64 > limit {
            return Err(ReadError::TooLong(limit));
        }
        let Ok(bytes) = held.to_vec(alloc) else {
            // Nothing was read, so no name is kept.
            let _noted = self.names.pop();
            return Err(ReadError::Memory);
        };
        Ok(bytes)
    }
}

// Whether the read of this number is to fail.
fn is_listed(failing: &[u64], call: u64) -> bool
    ensures { result ≡ list_any (λ number. number == call) failing.now }
{
    failing.contains(&call)
}

// The bytes of the first file of this name.
fn found<'a>(files: &'a [(String, Vec<u8>)], name: &str) -> Option<&'a [u8]>
    ensures none { IsNone result → found_in (pairs_of files.now) name.now ≡ None }
    ensures bytes { IfSome result (λ bytes. found_in (pairs_of files.now) name.now ≡ Some bytes.now) }
{
    let mut rest = files;
    while let Some((first, others)) = rest.split_first() {
        if first.0.as_str() == name {
            return Some(&first.1);
        }
        rest = others;
    }
    None
}
