//! The rows of an inputs file.

ghost use Rattle.std.specs.Prelude.{◌≡◌, ◌≢◌, ◌<◌, ◌≤◌, ◌+◌, ◌*◌, ◌++◌, ◌/◌, ℕ, [], length, map, IfOk, IfErr, IfSome};
ghost use Rattle.std.specs.Prelude.{IfNone, OnOk, Some, true, pos, slice_get};
ghost use lib.Signed.{◌≤ℤ◌, ◌<ℤ◌};
ghost use Rattle.alf_faults.specs.Sizes.{is_export_size};
ghost use Rattle.std.specs.Bool.{OnTrue, OnFalse};
ghost use Rattle.std.specs.Option.{option_map};
ghost use Rattle.toml.specs.View.{table_view, view};
ghost use Rattle.alf_check.specs.CheckedPrograms.{seen};
ghost use Rattle.alf_check.specs.Inputs.{KeepInputs};
ghost use Rattle.cost_table.specs.declared.fault.TableFault.TheVariants.{Memory};
ghost use Rattle.cost_table.specs.Entries.{AllRight, IsFirstFault};
ghost use Rattle.cost_table.specs.Inputs.{IsRun, LiesIn, first_row, entry_rows, rows_in, input_judging, input_entries};
ghost use Rattle.cost_table.specs.Inputs.{IsRightInput, IsWrongInput, MeansInputs, RefusesInputs};
ghost use Rattle.cost_table.specs.Marks.{AreMarks, IsMarkedIn, MarksIn, start_of, end_of};

use crate::document::document;
use crate::fault::TableFault;
use crate::frames::input_frame;
use crate::input_entry::{Cells, Run, has_input_top, input_entry, run_of};
use crate::keys::{entries_at, entry_count, nth};
use crate::row_list::add_rows;
use crate::taken::{any_marked, mark};
use alf_check::{Checked, FrameRow, InputRow};
use std::alloc::Global;
use toml::{Table, Value};

/// The rows of an inputs file for a program: those of its entries in order, a row for each cell.
///
/// `[[input]]` entries have `frame`, a text, `offset` in bytes, `size` in bits, `low` and `high`, and
/// `count`, which is 1 where it is absent; all but the name are whole numbers. A frame is global or an
/// argument of the function that the program starts with. The cells follow one another.
///
/// 2^32 entries or more are want of memory. Takes time linear in the file and in the frames, and a mark for each byte
/// of a frame of the greatest size.
pub fn inputs(alloc: Global, bytes: &[u8], checked: &Checked) -> Result<Vec<InputRow>, TableFault>
    ensures means { IfOk result (λ rows. MeansInputs bytes.now (seen checked.now) rows.items) }
    ensures keep { IfOk result (λ rows. KeepInputs (seen checked.now) rows.items) }
    ensures refused { IfErr result (λ fault. fault ≢ Memory → RefusesInputs bytes.now (seen checked.now) fault) }
{
    let table = match document(alloc, bytes) {
        Ok(table) => table,
        Err(fault) => return Err(fault),
    };
    let Some(values) = entries(&table) else {
        return Err(TableFault::Key(None));
    };
    match all_rows(alloc, checked, values) {
        Ok(rows) => Ok(rows),
        Err(fault) => Err(fault),
    }
}

// The entries, if only `input` stands at the top.
#[tactic(auto, using(crate::proofs::Seen::only_keys_all))]
fn entries(table: &Table) -> Option<&[Value]>
    ensures { option_map (λ values. map view values.now) result ≡ input_entries (table_view table.now) }
{
    if has_input_top(table) {
        entries_at(table, "input")
    } else {
        None
    }
}

// The rows of all entries.
fn all_rows(alloc: Global, checked: &Checked, values: &[Value]) -> Result<Vec<InputRow>, TableFault>
    ensures right { OnOk result (AllRight (input_judging (seen checked.now)) (map view values.now)) }
    ensures all { IfOk result (λ rows. rows.items ≡ rows_in (seen checked.now) (map view values.now)) }
    ensures keep { IfOk result (λ rows. KeepInputs (seen checked.now) rows.items) }
    ensures first { IfErr result
        (λ fault. fault ≢ Memory → IsFirstFault (input_judging (seen checked.now)) (map view values.now) fault) }
{
    let Some(count) = entry_count(values) else {
        return Err(TableFault::Memory);
    };
    let mut marks = marks_of(alloc, checked)?;
    let marks = marks.as_mut_slice();
    let mut rows = Vec::new(alloc);
    for place in 0..count {
        if let Err(fault) = add_entry(checked, nth(values, place), place, &mut rows, marks) {
            return Err(fault);
        }
    }
    Ok(rows)
}

// No mark for any byte of the frames.
fn marks_of(alloc: Global, checked: &Checked) -> Result<Vec<bool>, TableFault>
    ensures long { IfOk result (λ marks. length marks.items ≡ length (seen checked.now).frames * 65536) }
    ensures none { IfOk result (λ marks. AreMarks [] marks.items) }
    ensures refused { IfErr result (λ fault. fault ≡ Memory) }
{
    checked.keeps();
    let Ok(marks) = vec![in alloc; false; checked.frames().len() * 65536] else {
        return Err(TableFault::Memory);
    };
    Ok(marks)
}

// Adds the rows of an entry, and marks their bytes.
fn add_entry(
    checked: &Checked,
    value: &Value,
    place: u32,
    rows: &mut Vec<InputRow>,
    marks: &mut [bool],
) -> Result<(), TableFault>
    requires kept { KeepInputs (seen checked.now) rows.old.items }
    requires long { length marks.old ≡ length (seen checked.now).frames * 65536 }
    requires marked { AreMarks rows.old.items marks.old }
    ensures right { OnOk result (IsRightInput (seen checked.now) rows.old.items (view value.now)) }
    ensures more { OnOk result (rows.new.items ≡ rows.old.items ++ entry_rows (seen checked.now) (view value.now)) }
    ensures keep { OnOk result (KeepInputs (seen checked.now) rows.new.items) }
    ensures same_length { OnOk result (length marks.new ≡ length marks.old) }
    ensures marked { OnOk result (AreMarks rows.new.items marks.new) }
    ensures wrong { IfErr result
        (λ fault. fault ≢ Memory → IsWrongInput (seen checked.now) rows.old.items place (view value.now) fault) }
{
    checked.keeps();
    let Some((name, cells)) = input_entry(value) else {
        return Err(TableFault::Key(Some(place)));
    };
    let Some(run) = run_of(&cells) else {
        return Err(TableFault::Range(place));
    };
    let Some(first) = first_cell(checked, name, &cells, run) else {
        return Err(TableFault::NoSuchCell(place));
    };
    if !take(marks, first, run.count) {
        return Err(TableFault::NoSuchCell(place));
    }
    let Ok(()) = add_rows(rows, first, run.count) else {
        return Err(TableFault::Memory);
    };
    Ok(())
}

// The row of the first cell, if all cells lie in their frame.
fn first_cell(checked: &Checked, name: &str, cells: &Cells, run: Run) -> Option<InputRow>
    requires { IsRun cells.now run }
    ensures lies { IfSome result
        (λ row. LiesIn (seen checked.now) (name.now, cells.now) row.frame × (row ≡ first_row cells.now row.frame)) }
    ensures none { IfNone result ((f : ℕ) → ¬ LiesIn (seen checked.now) (name.now, cells.now) f) }
{
    checked.keeps();
    let frame = input_frame(checked, name)?;
    let row = frame_row(checked, frame);
    let Some(offset) = small_offset(cells.offset) else {
        return None;
    };
    if !lie_within(offset, run, row.bits / 8) {
        return None;
    }
    Some(InputRow {
        frame,
        offset,
        size: run.bits,
        low: i128::from(cells.low),
        high: i128::from(cells.high),
    })
}

// The frame of this number.
fn frame_row(checked: &Checked, frame: u32) -> &FrameRow
    requires { frame < length (seen checked.now).frames }
    ensures { slice_get (seen checked.now).frames frame ≡ Some result.now }
{
    &checked.frames()[frame as usize]
}

// The offset, if it is at most 65,536, which no frame passes.
fn small_offset(offset: i64) -> Option<u32>
    ensures some { IfSome result (λ number. (offset ≡ pos number) × (number ≤ 65536)) }
    ensures none { IfNone result (pos 0 ≤ℤ offset → pos 65536 <ℤ offset) }
{
    if offset < 0 || offset > 65536 {
        return None;
    }
    Some(offset as u32)
}

// So many cells from the offset on lie in the first bytes of a frame.
fn lie_within(offset: u32, run: Run, bytes: u32) -> bool
    requires offset { offset ≤ 65536 }
    requires count { run.count ≤ 65536 }
    requires bits { is_export_size run.bits ≡ true }
    ensures within { OnTrue result (offset + run.count * (run.bits / 8) ≤ bytes) }
    ensures beyond { OnFalse result (bytes < offset + run.count * (run.bits / 8)) }
{
    offset + run.count * (run.bits / 8) <= bytes
}

// Marks the bytes of so many cells from the row's on, if none of them has a mark.
fn take(marks: &mut [bool], row: InputRow, count: u32) -> bool
    requires frame { row.frame < 256 }
    requires cells { row.offset + count * (row.size / 8) ≤ 65536 }
    requires within { end_of row count ≤ length marks.old }
    ensures taken { OnTrue result
        (MarksIn marks.old marks.new (start_of row) (end_of row count)
        × ¬ IsMarkedIn marks.old (start_of row) (end_of row count)) }
    ensures met { OnFalse result (IsMarkedIn marks.old (start_of row) (end_of row count)) }
{
    let from = row.frame as usize * 65536 + row.offset as usize;
    let to = from + count as usize * (row.size as usize / 8);
    if any_marked(marks, from, to) {
        return false;
    }
    mark(marks, from, to);
    true
}
