//! Where files come from.

ghost use Rattle.std.specs.Prelude.{◌≡◌, ◌≤◌, option_copied, IsErrOf};
ghost use Rattle.flow_base.specs.Outside.{next_count};
ghost use Rattle.flow_base.specs.Shelves.{ShelfState, IsRead};

use std::alloc::Global;
use thiserror::Error;

/// Why a read gave no bytes.
#[derive(Clone, Copy, Debug, PartialEq, Eq, Error)]
pub enum ReadError {
    /// The file could not be read, or there is none of this name. The shelf keeps the name.
    #[error("the file could not be read")]
    Failed,
    /// The file has more bytes than this, the limit of the read.
    #[error("the file has more than {0} bytes")]
    TooLong(u64),
    /// Memory ran out. The shelf keeps the name that failed before.
    #[error("out of memory")]
    Memory,
}

/// Where files come from, by name.
///
/// A shelf may tell its files, and the names that were read. Not telling them is always allowed; a
/// shelf that tells goes on telling, and one that tells nothing goes on telling nothing. A read is
/// of a whole file, and the only call that can fail for an outer cause.
pub trait Shelf {
    /// What contracts see of it.
    ghost state: { Self → ShelfState };

    /// The name of the last read that failed. Takes no memory.
    fn failed(&self) -> Option<&str>
        ensures { option_copied result ≡ (state self.now).failed };

    /// How often a read has failed. It stands still at the end of its type. Takes no memory.
    fn faults(&self) -> u64
        ensures { result ≡ (state self.now).faults };

    /// Reads a whole file of at most `limit` bytes.
    fn read(&mut self, alloc: Global, name: &str, limit: u64) -> Result<Vec<u8>, ReadError>
        ensures answer { IsRead name.now limit (state self.old) result (state self.new) }

        // No read changes a file, and each is counted.
        ensures same_files { (state self.new).files ≡ (state self.old).files }
        ensures counted { (state self.new).reads ≡ next_count (state self.old).reads }
        ensures later { (state self.old).faults ≤ (state self.new).faults }
        ensures others { (IsErrOf result ReadError.Failed → ⊥) → (state self.new).failed ≡ (state self.old).failed };
}
