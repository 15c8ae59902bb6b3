//! A list in two parts.

ghost use Rattle.std.specs.Prelude.{◌≡◌, ◌++◌, ◌∷◌, ◌+◌, ◌<◌, ◌≤◌, ◌^◌, [], reverse, length, OnOk, slice_get, Some};
ghost use Rattle.worklist.specs.Least.{IsFirstLeast};
ghost use Rattle.worklist.specs.Lines.{AreFirst, AreLeast, keys_of, line_of};

use crate::Keyed;
use crate::earlier::{key_earlier, least_earlier, put_last};
use crate::entry::Entry;
use crate::later::{key_later, least_later, put_first};
use crate::order::precedes;
use std::alloc::AllocError;

/// Moves elements from one part to the other, until so many are in the earlier one.
pub fn part_at<X: Keyed + Drop>(
    earlier: &mut Vec<Entry<X>>,
    later: &mut Vec<Entry<X>>,
    count: usize,
) -> Result<(), AllocError>
    requires count { count ≤ length earlier.old.items + length later.old.items }
    requires first { AreFirst X.key_of (reverse earlier.old.items) }
    requires least { AreLeast X.key_of (reverse later.old.items) }
    ensures same { OnOk result (line_of earlier.new.items later.new.items ≡ line_of earlier.old.items later.old.items) }
    ensures parted { OnOk result (length earlier.new.items ≡ count) }
    ensures first { AreFirst X.key_of (reverse earlier.new.items) }
    ensures least { AreLeast X.key_of (reverse later.new.items) }
{
    while earlier.len() > count {
        let Some(last) = earlier.pop() else {
            unreachable!()
        };
        put_first(later, last.item)?;
    }
    while earlier.len() < count {
        let Some(first) = later.pop() else {
            unreachable!()
        };
        put_last(earlier, first.item)?;
    }
    Ok(())
}

/// The element at a place.
pub fn element<'a, X>(earlier: &'a [Entry<X>], later: &'a [Entry<X>], place: usize) -> &'a X
    requires { place < length earlier.now + length later.now }
    ensures { slice_get (line_of earlier.now later.now) place ≡ Some result.now }
{
    if place < earlier.len() {
        earlier[place].item.as_ref()
    } else {
        later[later.len() - 1 - (place - earlier.len())]
            .item
            .as_ref()
    }
}

/// The place of the first least of both parts.
pub fn first_of<X: Keyed>(earlier: &[Entry<X>], later: &[Entry<X>]) -> usize
    requires some { 0 < length earlier.now + length later.now }
    requires few { length earlier.now + length later.now < 2 ^ 64 }
    requires first { AreFirst X.key_of (reverse earlier.now) }
    requires least { AreLeast X.key_of (reverse later.now) }
    ensures { IsFirstLeast (keys_of X.key_of earlier.now ++ keys_of X.key_of (reverse later.now)) result }
{
    if later.is_empty() {
        return least_earlier(earlier);
    }
    let right = least_later(later);
    if earlier.is_empty() {
        return right;
    }
    let left = least_earlier(earlier);
    if precedes(key_later(later, right), key_earlier(earlier, left)) {
        earlier.len() + right
    } else {
        left
    }
}
