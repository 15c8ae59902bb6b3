//! The later part of a list, turned round: its last entry is the first element.

ghost use Rattle.std.specs.Prelude.{◌≡◌, ◌∷◌, ◌<◌, [], reverse, length, OnOk};
ghost use Rattle.worklist.specs.Least.{IsFirstLeast, key_at};
ghost use Rattle.worklist.specs.Lines.{AreLeast, keys_of, items_of};

use crate::Keyed;
use crate::entry::Entry;
use crate::order::precedes;
use std::alloc::AllocError;

/// How far from the first element the first least stands.
pub fn least_later<X: Keyed>(later: &[Entry<X>]) -> usize
    requires some { 0 < length later.now }
    requires least { AreLeast X.key_of (reverse later.now) }
    ensures { IsFirstLeast (keys_of X.key_of (reverse later.now)) result }
{
    later[later.len() - 1].least
}

/// The key of the element so far from the first one.
pub fn key_later<X: Keyed>(later: &[Entry<X>], farther: usize) -> &[u32]
    requires { farther < length later.now }
    ensures { result.now ≡ key_at (keys_of X.key_of (reverse later.now)) farther }
{
    later[later.len() - 1 - farther].item.as_ref().key()
}

/// How far the first least stands from an element that comes before the others.
fn farther<X: Keyed>(later: &[Entry<X>], item: &X) -> usize
    requires { AreLeast X.key_of (reverse later.now) }
    ensures { IsFirstLeast (X.key_of item.now ∷ keys_of X.key_of (reverse later.now)) result }
{
    if later.is_empty() {
        return 0;
    }
    let least = least_later(later);
    if precedes(key_later(later, least), item.key()) {
        least + 1
    } else {
        0
    }
}

/// Puts an element before the others.
pub fn put_first<X: Keyed + Drop>(later: &mut Vec<Entry<X>>, item: Box<X>) -> Result<(), AllocError>
    requires { AreLeast X.key_of (reverse later.old.items) }
    ensures put { OnOk result (items_of (reverse later.new.items) ≡ item.value ∷ items_of (reverse later.old.items)) }
    ensures kept { AreLeast X.key_of (reverse later.new.items) }
{
    let least = farther(later, item.as_ref());
    later.push(Entry { item, least })?;
    Ok(())
}
