//! The function whose frames are made.

ghost use Rattle.std.specs.Prelude.{◌≡◌, IfOk};
ghost use Rattle.c_lowered.specs.Names as names;
ghost use Rattle.object_layout.specs.Views.{program_in};

use flow_base::Name;
use object_layout::{Table, numbered_name};
use std::alloc::{AllocError, Global};

/// A function whose frames are made: the table of its unit, and its number.
#[derive(Clone, Copy)]
pub struct Place<'b, 'a> {
    pub alloc: Global,
    pub table: &'b Table<'a>,
    pub function: u32,
}

/// The name of the frame of the result of the function's call of this number.
pub fn call_name(place: Place<'_, '_>, number: u64) -> Result<Name, AllocError>
    ensures { IfOk result
        (λ name. name ≡ names.call_name (program_in place.entry.table.now) place.entry.function number) }
{
    numbered_name(
        place.alloc,
        place.table.function_name(place.function),
        b"$",
        number,
    )
}
