//! The order of keys.

ghost use Rattle.std.specs.Prelude.{IsTrue, ◌↔◌};
ghost use Rattle.worklist.specs.Least.{Precedes};

use std::cmp::Ordering;

/// Whether a key is less than another.
pub fn precedes(a: &[u32], b: &[u32]) -> bool
    ensures { IsTrue result ↔ Precedes a.now b.now }
{
    match a.cmp(b) {
        Ordering::Less => true,
        _ => false,
    }
}
