//! The function whose code is lowered.

use object_layout::Table;
use std::alloc::Global;

/// A function whose code is lowered: the table of its unit, and its number.
#[derive(Clone, Copy)]
pub struct Code<'b, 'a> {
    /// Where memory comes from.
    pub alloc: Global,
    /// The objects and functions of the unit.
    pub table: &'b Table<'a>,
    /// The number of the function among those of the unit.
    pub function: u32,
}
