//! The earlier part of a list.

ghost use Rattle.std.specs.Prelude.{◌≡◌, ◌++◌, ◌∷◌, ◌<◌, [], reverse, length, OnOk};
ghost use Rattle.worklist.specs.Least.{IsFirstLeast, key_at};
ghost use Rattle.worklist.specs.Lines.{AreFirst, keys_of, items_of};

use crate::Keyed;
use crate::entry::Entry;
use crate::order::precedes;
use std::alloc::AllocError;

/// The place of the first least.
pub fn least_earlier<X: Keyed>(earlier: &[Entry<X>]) -> usize
    requires some { 0 < length earlier.now }
    requires first { AreFirst X.key_of (reverse earlier.now) }
    ensures { IsFirstLeast (keys_of X.key_of earlier.now) result }
{
    earlier[earlier.len() - 1].least
}

/// The key at a place.
pub fn key_earlier<X: Keyed>(earlier: &[Entry<X>], place: usize) -> &[u32]
    requires { place < length earlier.now }
    ensures { result.now ≡ key_at (keys_of X.key_of earlier.now) place }
{
    earlier[place].item.as_ref().key()
}

/// The place of the first least of the entries and an element after them.
fn first_with<X: Keyed>(earlier: &[Entry<X>], item: &X) -> usize
    requires { AreFirst X.key_of (reverse earlier.now) }
    ensures { IsFirstLeast (keys_of X.key_of earlier.now ++ X.key_of item.now ∷ []) result }
{
    if earlier.is_empty() {
        return 0;
    }
    let least = least_earlier(earlier);
    if precedes(item.key(), key_earlier(earlier, least)) {
        earlier.len()
    } else {
        least
    }
}

/// Puts an element after the others.
pub fn put_last<X: Keyed + Drop>(
    earlier: &mut Vec<Entry<X>>,
    item: Box<X>,
) -> Result<(), AllocError>
    requires { AreFirst X.key_of (reverse earlier.old.items) }
    ensures put { OnOk result (items_of earlier.new.items ≡ items_of earlier.old.items ++ item.value ∷ []) }
    ensures kept { AreFirst X.key_of (reverse earlier.new.items) }
{
    let least = first_with(earlier, item.as_ref());
    earlier.push(Entry { item, least })?;
    Ok(())
}
