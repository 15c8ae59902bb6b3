//! A table of the first definition of each name.

ghost use Rattle.std.specs.Prelude.{◌≡◌, ℕ, List, Some, IfOk, OnOk, if◌then◌else◌};
ghost use Rattle.std.specs.Str.{bytes_eq};
ghost use Rattle.c_scopes.specs.Table.{found, IsTableOf};

use crate::unit_tokens::Words;
use indexmap::IndexMap;
use std::alloc::{AllocError, Global};

/// The table of these names.
pub fn table_of<'a>(
    alloc: Global,
    words: &Words<'a>,
    names: &[u32],
) -> Result<IndexMap<&'a [u8], usize>, AllocError>
    ensures { IfOk result (λ table. IsTableOf words.now names.now table) }
{
    let mut table = IndexMap::new(alloc);
    // From the last name on, so that of equal names the first one stays.
    for number in (0..names.len()).rev() {
        put(&mut table, words.text_at(names[number]), number)?;
    }
    Ok(table)
}

// Puts the number under the name.
fn put<'a>(
    table: &mut IndexMap<&'a [u8], usize>,
    name: &'a [u8],
    number: usize,
) -> Result<(), AllocError>
    ensures { OnOk result
        ((other : List ℕ)
        → found table.new other ≡ (if bytes_eq name.now other then Some number else found table.old other)) }
{
    table.insert(name, number)?;
    Ok(())
}
