//! Rows of one entry.

ghost use Rattle.std.specs.Prelude.{◌≡◌, ◌<◌, ◌+◌, ◌*◌, ◌/◌, ◌^◌, ◌++◌, OnOk};
ghost use Rattle.cost_table.specs.Inputs.{rows_from};

use alf_check::InputRow;
use std::alloc::AllocError;

// Adds this row and as many of the cells after it as make `count`.
pub fn add_rows(rows: &mut Vec<InputRow>, first: InputRow, count: u32) -> Result<(), AllocError>
    requires { first.offset + count * (first.size / 8) < 2 ^ 32 }
    ensures { OnOk result (rows.new.items ≡ rows.old.items ++ rows_from first count) }
{
    let mut row = first;
    let mut left = count;
    while left > 0 {
        rows.push(row)?;
        row.offset += row.size / 8;
        left -= 1;
    }
    Ok(())
}
