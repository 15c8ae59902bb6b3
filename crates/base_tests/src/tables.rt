//! Tables of tests as text, and the first row that is not answered as it is due.

use crate::loads::{load_told, overlap_told};
use crate::numbers::{checked_told, parts_told, pieces_told, quotient_told, sums_told};
use crate::operators::{names_told, outcome_told, shape_told, word_told};
use crate::outside::{digits_told, fault_told, name_told, shelf_told, sink_told, sure_sink_told};
use crate::searches::boxes_told;
use crate::streams::{reader_told, refusal_told, writer_told};
use crate::walks::{calls_told, reached_told, walk_told};
use crate::words::command_told;
use std::alloc::{AllocError, Global};
use std::test::Fail;

/// Fails with the first row that is not answered as it is due.
///
/// The first line of a table says how many rows it has, its subject, and perhaps, behind ` => `, the answer that is
/// due of each row. Each further line is a row: what is asked, ` => `, and the answer that is due, perhaps with a
/// remark behind ` // `. A line that begins with `// ` says what the rows below it are.
pub fn hold(alloc: Global, table: &str) -> Result<(), Fail> {
    match wrong_in(alloc, table)? {
        Some(wrong) => Err(Fail::new(wrong)),
        None => Ok(()),
    }
}

// What is told of the first row that is not answered as it is due, or of a table with another count of rows.
fn wrong_in(alloc: Global, table: &str) -> Result<Option<String>, AllocError> {
    let head = part(table, "\n", 0);
    let subject = part(part(head, " => ", 0), " ", 1);
    let mut count: u32 = 0;
    for row in table.split('\n').skip(1) {
        if row.starts_with("// ") {
            continue;
        }
        count = count.saturating_add(1);
        let told = answer_of(alloc, subject, part(row, " => ", 0))?;
        let due = due_of(head, row);
        if told.as_str() != due {
            return Ok(Some(format!(in alloc; "{told} in place of {due} at {row}")?));
        }
    }
    if count == number(part(head, " ", 0)) {
        return Ok(None);
    }
    Ok(Some(format!(in alloc; "{count} rows in place of {head}")?))
}

/// The answer that is due of a row of a table with this head.
pub fn due_of<'a>(head: &'a str, row: &'a str) -> &'a str {
    if head.contains(" => ") {
        return part(head, " => ", 1);
    }
    part(part(row, " => ", 1), " // ", 0)
}

// What answers a row of this subject.
fn answer_of(alloc: Global, subject: &str, asked: &str) -> Result<String, AllocError> {
    match subject {
        "digits" => digits_told(alloc, asked),
        "name" => name_told(alloc, asked),
        "fault" => fault_told(alloc, asked),
        "shelf" => shelf_told(alloc, asked),
        "sink" => sink_told(alloc, asked),
        "sure_sink" => sure_sink_told(alloc, asked),
        "reader" => reader_told(alloc, asked),
        "writer" => writer_told(alloc, asked),
        "refusal" => refusal_told(alloc, asked),
        "words" => command_told(alloc, asked),
        _ => answer_below(alloc, subject, asked),
    }
}

// The same of operators, numbers, walks and searches.
fn answer_below(alloc: Global, subject: &str, asked: &str) -> Result<String, AllocError> {
    match subject {
        "names" => names_told(alloc, asked),
        "shape" => shape_told(alloc, asked),
        "word" => word_told(alloc, asked),
        "outcome" => outcome_told(alloc, asked),
        "load" => load_told(alloc, asked),
        "overlap" => overlap_told(alloc, asked),
        "quotient" => quotient_told(alloc, asked),
        "checked" => checked_told(alloc, asked),
        "sums" => sums_told(alloc, asked),
        "parts" => parts_told(alloc, asked),
        "pieces" => pieces_told(alloc, asked),
        "calls" => calls_told(alloc, asked),
        "walk" => walk_told(alloc, asked),
        "reached" => reached_told(alloc, asked),
        "boxes" => boxes_told(alloc, asked),
        _ => String::from_str(alloc, "no subject"),
    }
}

/// A part of a text, between two of the marks. Empty where it is not there.
pub fn part<'a>(text: &'a str, mark: &str, place: usize) -> &'a str {
    text.split(mark).nth(place).unwrap_or("")
}

/// The number that a text writes, or 0.
pub fn number(text: &str) -> u32 {
    text.parse::<u32>().unwrap_or(0)
}

/// The numbers of the words. A word that is no number is left out.
pub fn numbers(alloc: Global, words: &str) -> Result<Vec<u32>, AllocError> {
    let mut numbers = Vec::new(alloc);
    for word in words.split(' ') {
        if let Ok(number) = word.parse::<u32>() {
            numbers.push(number)?;
        }
    }
    Ok(numbers)
}

/// Adds the numbers, with a space before each.
pub fn push_numbers(text: &mut String, numbers: &[u32]) -> Result<(), AllocError> {
    let alloc = *text.allocator();
    for number in numbers {
        text.push_str(format!(in alloc; " {number}")?.as_str())?;
    }
    Ok(())
}
