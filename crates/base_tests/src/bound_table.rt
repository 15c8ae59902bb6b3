//! Tables of bounds.

ghost use Rattle.std.specs.Prelude.{◌≡◌};
ghost use Rattle.base_tests.specs.BoundTables.{told_of_all};

use std::alloc::{AllocError, Global};
use worst_inputs::{Bounded, Bounder, Range};

/// What is told of each number from 0 on.
#[derive(Drop)]
pub struct BoundTable {
    pub entries: Vec<Bounded>,
}

/// The greatest bound of all, or the first place where one is missing.
fn told_all(entries: &[Bounded]) -> Bounded
    ensures { result ≡ told_of_all entries.now }
{
    let mut most = 0;
    for entry in entries {
        match *entry {
            Bounded::At(bound) => most = bound.max(most),
            Bounded::Left(scope) => return Bounded::Left(scope),
        }
    }
    Bounded::At(most)
}

impl Bounder for BoundTable {
    ghost use Rattle.std.specs.Prelude.{List};
    ghost use Rattle.worst_inputs.specs.declared.bounder.Bounded.{Bounded as Told};
    ghost use Rattle.base_tests.specs.BoundTables.{table_bounding};
    ghost use Rattle.base_tests.specs.BoundTableLaws.{table_is_bounding};

    ghost Named = { List Told };

    ghost named = { λ table. table.entries.items };

    ghost bounding = { table_bounding };

    ghost is_bounding = { table_is_bounding };

    fn bound(&mut self, _alloc: Global, area: &[Range]) -> Result<Bounded, AllocError> {
        let low = area[0].low as usize;
        let high = area[0].high as usize;
        Ok(told_all(&self.entries[low..high + 1]))
    }
}
