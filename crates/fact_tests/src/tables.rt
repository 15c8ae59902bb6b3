//! Tables of tests as text, and the first row that is not answered as it is due.

use crate::edits::{cut, printed, swapped, with_line};
use crate::facts::{ascending, told_on};
use crate::rows::{bound, row_count, row_sum, told_rows, verdict};
use std::alloc::Global;
use std::test::Fail;

/// The part of a text at this place, where a mark stands between two. Empty where it is not there.
pub fn part<'a>(text: &'a str, mark: &str, place: usize) -> &'a str {
    text.split(mark).nth(place).unwrap_or("")
}

/// What stands before the first mark, or what stands after it.
pub fn side<'a>(text: &'a str, mark: &str, place: usize) -> &'a str {
    text.splitn(2, mark).nth(place).unwrap_or("")
}

/// The part of a case at this place.
pub fn field(case: &str, place: usize) -> &str {
    part(case, " | ", place)
}

/// The number that a word spells, or 0.
pub fn number(word: &str) -> u32 {
    word.parse::<u32>().unwrap_or(0)
}

/// Fails with the first row that is not answered as it is due.
///
/// A table has sections, with an empty line between two. The first line of a section is the begin of a case, each
/// further line a row: the rest of the case, ` => `, and the answer that is due. A line that begins with `#` is a
/// remark.
pub fn hold(alloc: Global, table: &str) -> Result<(), Fail> {
    for section in table.split("\n\n") {
        let rows = side(section, "\n", 1);
        if !rows.contains(" => ") {
            return Err("a section has no rows".into());
        }
        for row in rows.lines() {
            if !row.starts_with('#') {
                hold_row(alloc, side(section, "\n", 0), row)?;
            }
        }
    }
    Ok(())
}

// Fails where the row is not answered as it is due.
fn hold_row(alloc: Global, begin: &str, row: &str) -> Result<(), Fail> {
    let case = format!(in alloc; "{begin} | {}", side(row, " => ", 0))?;
    let told = answer(alloc, case.as_str())?;
    if told.as_str() == side(row, " => ", 1) {
        return Ok(());
    }
    Err(Fail::new(format!(in alloc; "{told} in place of {row}")?))
}

// What answers a case. Its first part says what is asked.
fn answer(alloc: Global, case: &str) -> Result<String, Fail> {
    match field(case, 0) {
        "holds" => told_on(alloc, case),
        "order" => Ok(ascending(alloc, case)?),
        "line" => Ok(with_line(alloc, case)?),
        "swap" => Ok(swapped(alloc, case)?),
        "cut" => Ok(cut(alloc, case)?),
        "print" => printed(alloc, case),
        "rows" => told_rows(alloc, case),
        "pairs" => row_count(alloc, case),
        "sum" => row_sum(alloc, case),
        "verdict" => verdict(alloc, case),
        "bound" => bound(alloc, case),
        _ => Err("nothing is asked".into()),
    }
}
