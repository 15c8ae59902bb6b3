//! Rows of inputs with other ranges.

ghost use Rattle.std.specs.Prelude.{◌≡◌, length, IfOk};
ghost use Rattle.program_bounder.specs.InputRows.{range_of, ranges_of, with_range, with_ranges};

use alf_check::InputRow;
use std::alloc::{AllocError, Global};
use worst_inputs::Range;

// The range of a row.
fn range_of(row: &InputRow) -> Range
    ensures { result ≡ range_of row.now }
{
    Range {
        low: row.low,
        high: row.high,
    }
}

/// The ranges of the rows.
pub(crate) fn ranges_of(alloc: Global, rows: &[InputRow]) -> Result<Vec<Range>, AllocError>
    ensures { IfOk result (λ ranges. ranges.items ≡ ranges_of rows.now) }
{
    let mut ranges = Vec::new(alloc);
    for row in rows {
        ranges.push(range_of(row))?;
    }
    Ok(ranges)
}

// The row with this range.
fn with_range(row: &InputRow, range: &Range) -> InputRow
    ensures { result ≡ with_range row.now range.now }
{
    InputRow {
        frame: row.frame,
        offset: row.offset,
        size: row.size,
        low: range.low,
        high: range.high,
    }
}

/// The rows with these ranges.
pub(crate) fn with_ranges(
    alloc: Global,
    rows: &[InputRow],
    area: &[Range],
) -> Result<Vec<InputRow>, AllocError>
    requires { length area.now ≡ length rows.now }
    ensures { IfOk result (λ made. made.items ≡ with_ranges rows.now area.now) }
{
    let mut made = Vec::new(alloc);
    for (place, row) in rows.iter().enumerate() {
        made.push(with_range(row, &area[place]))?;
    }
    Ok(made)
}
