//! Why a file is refused.

ghost use Rattle.std.specs.Prelude.{◌≡◌};
ghost use Rattle.cost_table.specs.declared.fault.TableFault.TheVariants.{Memory};

use flow_base::Which;
use std::alloc::AllocError;
use std::fmt::{self, Debug, Formatter, Write};
use thiserror::Error;

/// Why a file is refused: the first fault. Faults of keys at the top come first, then too many entries, then
/// those of entries, which are judged one by one: keys, then ranges, then the cell or the block. Entries
/// count from 0.
#[derive(Clone, Copy, Drop, PartialEq, Eq, Error)]
pub enum TableFault {
    /// The bytes are no TOML document.
    #[error("the bytes are no TOML document")]
    Toml,
    /// A key is missing, unknown or of another kind: of this entry, or at the top. A cost that counts
    /// where no entry speaks and is outside its range is one at the top too.
    #[error("a key is missing, unknown or of another kind")]
    Key(Option<u32>),
    /// There are more entries than the limit of this quantity, and the number is the limit plus one.
    #[error("there are too many entries")]
    Limit(Which, u64),
    /// A number or a name of this entry is outside its range, or an earlier entry has its priority.
    #[error("a number or a name is outside its range")]
    Range(u32),
    /// No cell or block is where this entry has one, or an earlier entry has the cell.
    #[error("there is no such cell or block")]
    NoSuchCell(u32),
    /// Memory ran out.
    #[error("memory ran out")]
    Memory,
}

impl Debug for TableFault {
    fn fmt<W: Write>(&self, f: &mut Formatter<W>) -> Result<(), fmt::Error> {
        write!(f, "{self}")
    }
}

impl From<AllocError> for TableFault {
    ghost from_gives = { λ _ fault. fault ≡ Memory };

    fn from(_error: AllocError) -> TableFault {
        TableFault::Memory
    }
}
