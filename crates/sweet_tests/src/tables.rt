//! Tables of tests as text, and the first row that is not answered as it is due.

use crate::caches::missed;
use crate::cases::{field, file_of, number_of, push_numbered, side, split_line, told_as, told_of};
use crate::certificates::{chained, events_of};
use crate::made::counted;
use crate::worst::dearest;
use std::alloc::{AllocError, Global};
use std::test::Fail;

/// Fails with the first row that is not answered as it is due.
///
/// A table has sections, with two empty lines between them. A section begins with heads, each one a case, with a
/// line `--` between two. Behind an empty line each line is a row: what is asked, ` => `, and the answer that is
/// due. In a head `$0` to `$9` stand for the parts of what is asked. The last line of a head may tell what is due
/// of it, behind `=> `. A line that begins with `// ` says what the rows below it are.
pub fn hold(alloc: Global, table: &str) -> Result<(), Fail> {
    for section in table.split("\n\n\n") {
        if let Some(wrong) = wrong_in(alloc, section)? {
            return Err(Fail::new(wrong));
        }
    }
    Ok(())
}

// What is told of the first row of a section that is not answered as it is due.
fn wrong_in(alloc: Global, section: &str) -> Result<Option<String>, AllocError> {
    let heads = section.splitn(2, "\n\n").nth(0).unwrap_or("");
    let Some(rows) = section.splitn(2, "\n\n").nth(1) else {
        return Ok(Some(String::from_str(alloc, "a section has no rows")?));
    };
    let mut is_empty = true;
    for row in rows.lines() {
        if row.starts_with("// ") {
            continue;
        }
        is_empty = false;
        for head in heads.split("\n--\n") {
            let wrong = wrong_row(alloc, head, row)?;
            if wrong.is_some() {
                return Ok(wrong);
            }
        }
    }
    if is_empty {
        return Ok(Some(String::from_str(alloc, "a section has no rows")?));
    }
    Ok(None)
}

// The same of one head and one row. Where the head begins with `each`, it is a case for each number below the one
// behind it.
fn wrong_row(alloc: Global, head: &str, row: &str) -> Result<Option<String>, AllocError> {
    let asked = side(row, 0);
    let case = filled(alloc, head.split("\n=> ").nth(0).unwrap_or(""), asked)?;
    let due = match head.split("\n=> ").nth(1) {
        Some(due) => filled(alloc, due, asked)?,
        None => String::from_str(alloc, side(row, 1))?,
    };
    match case.as_str().strip_prefix("each ") {
        Some(rest) => wrong_number(alloc, rest, due.as_str()),
        None => wrong_case(alloc, case.as_str(), due.as_str()),
    }
}

// The template with the parts of what is asked. In its first line a part that is empty takes the space before it
// along.
fn filled(alloc: Global, template: &str, asked: &str) -> Result<String, AllocError> {
    let mut text = String::new(alloc);
    for (at, piece) in template.split('$').enumerate() {
        if at == 0 {
            text.push_str(piece)?;
            continue;
        }
        let part = field(asked, number_of(piece.get(..1).unwrap_or("")) as usize);
        if part.is_empty() && !text.as_str().contains('\n') && text.as_str().ends_with(' ') {
            text.pop();
        }
        text.push_str(part)?;
        text.push_str(piece.get(1..).unwrap_or(""))?;
    }
    Ok(text)
}

// What is told of the first of the numbers below the one in the first line, of which the case is not answered as it
// is due.
fn wrong_number(alloc: Global, cases: &str, due: &str) -> Result<Option<String>, AllocError> {
    let count = number_of(split_line(cases, 0));
    if count == 0 {
        return Ok(Some(String::from_str(alloc, "no number is below 0")?));
    }
    for number in 0..count {
        let mut case = String::new(alloc);
        push_numbered(&mut case, split_line(cases, 1), number)?;
        let mut due_of_it = String::new(alloc);
        push_numbered(&mut due_of_it, due, number)?;
        let wrong = wrong_case(alloc, case.as_str(), due_of_it.as_str())?;
        if wrong.is_some() {
            return Ok(wrong);
        }
    }
    Ok(None)
}

// What is told of a case, where that is not due.
fn wrong_case(alloc: Global, case: &str, due: &str) -> Result<Option<String>, AllocError> {
    let told = answer_of(alloc, case)?;
    if is_due(told.as_str(), due_text(alloc, due)?.as_str()) {
        return Ok(None);
    }
    let wrong = format!(in alloc; "{told} in place of {due} at {case}")?;
    Ok(Some(wrong))
}

// The answer that is due. `file` stands before a file whose text is printed, and `first` before a number and a text
// of which so many bytes are written before the write fails.
fn due_text(alloc: Global, due: &str) -> Result<String, AllocError> {
    if let Some(line) = due.strip_prefix("file ") {
        return told_as(alloc, 0, &file_of(alloc, line)?.1);
    }
    if let Some(cut) = due.strip_prefix("first ") {
        let text = cut.splitn(3, ' ').nth(2).unwrap_or("");
        let count = number_of(cut.split(' ').nth(0).unwrap_or("")) as usize;
        return format!(in alloc; "6 {}", text.get(..count).unwrap_or(text));
    }
    String::from_str(alloc, due)
}

// Whether this is one of the answers that are due, with ` or ` between two. Of one with `..` in it, what stands
// around is due.
fn is_due(told: &str, due: &str) -> bool {
    if told == due {
        return true;
    }
    for each in due.split(" or ") {
        if each == told || (each.contains("..") && has_parts(told, each)) {
            return true;
        }
    }
    false
}

// Whether the answer begins with what stands before the first `..`, ends with what stands after the last one, and
// has all that stands between two.
fn has_parts(told: &str, due: &str) -> bool {
    for part in due.split("..") {
        if !told.contains(part) {
            return false;
        }
    }
    told.starts_with(due.split("..").next().unwrap_or(""))
        && told.ends_with(due.rsplit("..").next().unwrap_or(""))
}

// What answers a case. A case whose first word begins with `!` is one of what several commands tell.
fn answer_of(alloc: Global, case: &str) -> Result<String, AllocError> {
    let rest = case.splitn(2, ' ').nth(1).unwrap_or("");
    match case.splitn(2, ' ').nth(0).unwrap_or("") {
        "!then" => chained(alloc, rest),
        "!count" => counted(alloc, rest),
        "!events" => events_of(alloc, rest),
        "!dearest" => dearest(alloc, rest),
        "!misses" => missed(alloc, rest),
        _ => told_of(alloc, case),
    }
}
