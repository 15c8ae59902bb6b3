//! Room for many elements.

ghost use Rattle.std.specs.Prelude.{◌≡◌, ◌≤◌, ◌++◌, length, take, drop, OnOk};

use std::alloc::AllocError;
use worklist::{Keyed, Line};

/// Puts elements at a place of a line, before those that stood there and after it.
pub fn put_all<X: Keyed + Drop>(
    line: &mut Line<X>,
    place: usize,
    made: Vec<X>,
) -> Result<(), AllocError>
    requires { place ≤ length line.old }
    ensures { OnOk result (line.new ≡ take place line.old ++ (made.items ++ drop place line.old)) }
{
    let mut made = made;
    while let Some(element) = made.pop() {
        line.put(place, element)?;
    }
    Ok(())
}
