//! Reports that are made of a report, and what is told of them.

use crate::tables::{field, number, part};
use fact_text::{ReportFault, print, read};
use std::alloc::{AllocError, Global};
use std::test::Fail;

// A report of form 2 with a line of each kind. In these texts a line ends with `;`.
const SECOND: &str = r#"facts 2;
node 0 0 0 "main":entry;
node 1 1 7 "a b".2"f":0;
scope 0 - 0 call;
scope 1 0 1 loop;
loop 1 2 3;
count 1 0 4 5;
dead 9;
total 0 1 1;
pair 0 1 2;
alarm 1 divide;
count-bound 23;
path-bound 22 stopped;
cert;
step 0;
merge 0 1;
scale 3;
mul -7;
mul 0;
end;"#;

// A report of form 1 with a certificate.
const FIRST: &str = r#"facts 1;
node 0 0 0 "main":entry;
node 1 0 1 "main":0;
node 2 1 1 "main":1;
node 3 1 1 "main":2;
node 4 0 1 "main":3;
scope 0 - 0 call;
scope 1 0 2 loop;
loop 1 11 11;
total 0 1 1;
total 1 1 1;
total 2 11 11;
total 3 10 10;
total 4 1 1;
count-bound 23;
path-bound 23 least;
cert;
step 0;
step 0;
step 0;
step 0;
step 0;
step 0;
step 0;
step 0;
step 0;
step 0;
step 0;
step 0;
step 0;
step 0;
step 0;
step 0;
step 0;
step 0;
step 0;
step 0;
step 0;
step 0;
step 0;
step 0;
scale 1;
mul 0;
mul 0;
mul 0;
mul 0;
mul 0;
mul 0;
mul 0;
mul 0;
mul 0;
mul 1;
mul 0;
mul 1;
mul 0;
mul 1;
mul 0;
mul 1;
mul 0;
end;"#;

// The report that a case names.
fn report_of(case: &str) -> &'static str {
    match field(case, 1) {
        "first" => FIRST,
        _ => SECOND,
    }
}

// The bytes of a report.
fn bytes_of(alloc: Global, text: &str) -> Result<Vec<u8>, AllocError> {
    let mut bytes = Vec::new(alloc);
    for byte in text.as_bytes() {
        if *byte != b'\n' {
            bytes.push(if *byte == b';' { b'\n' } else { *byte })?;
        }
    }
    Ok(bytes)
}

// `ok`, or the kind of a fault with its line and column.
fn told(alloc: Global, bytes: &[u8]) -> Result<String, AllocError> {
    match read(alloc, bytes) {
        Ok(_) => String::from_str(alloc, "ok"),
        Err(ReportFault::Syntax(at)) => format!(in alloc; "syntax {} {}", at.line, at.column),
        Err(ReportFault::Number(at)) => format!(in alloc; "number {} {}", at.line, at.column),
        Err(ReportFault::Memory) => Err(AllocError),
    }
}

// The lines with another text in place of one.
fn with(alloc: Global, lines: &str, at: u32, new: &str) -> Result<String, AllocError> {
    let mut text = String::new(alloc);
    for (place, line) in lines.lines().enumerate() {
        text.push_str(if place == at as usize { new } else { line })?;
        text.push('\n')?;
    }
    Ok(text)
}

/// What is told of a report with another text in place of a line.
pub fn with_line(alloc: Global, case: &str) -> Result<String, AllocError> {
    let text = with(
        alloc,
        report_of(case),
        number(field(case, 2)),
        field(case, 3),
    )?;
    let bytes = bytes_of(alloc, text.as_str())?;
    told(alloc, &bytes)
}

/// What is told of a report, two lines of it in each other's place.
pub fn swapped(alloc: Global, case: &str) -> Result<String, AllocError> {
    let lines = report_of(case);
    let first = number(part(field(case, 2), " ", 0));
    let second = number(part(field(case, 2), " ", 1));
    let once = with(alloc, lines, first, part(lines, "\n", second as usize))?;
    let twice = with(
        alloc,
        once.as_str(),
        second,
        part(lines, "\n", first as usize),
    )?;
    let bytes = bytes_of(alloc, twice.as_str())?;
    told(alloc, &bytes)
}

/// Of each byte of a line the column that is told of a report which is cut short before it.
pub fn cut(alloc: Global, case: &str) -> Result<String, AllocError> {
    let at = number(field(case, 2));
    let head = format!(in alloc; "syntax {} ", at.wrapping_add(1))?;
    let mut line: u32 = 0;
    let mut text = Vec::new(alloc);
    let mut all = String::new(alloc);
    for byte in &bytes_of(alloc, report_of(case))? {
        if line == at {
            let told = told(alloc, &text)?;
            all.push_str(told.as_str().strip_prefix(head.as_str()).unwrap_or("?"))?;
            all.push(' ')?;
        }
        text.push(*byte)?;
        if *byte == b'\n' {
            line = line.wrapping_add(1);
        }
    }
    all.pop();
    Ok(all)
}

/// The form of a report, how many nodes and facts it has, its count bound, and whether its text is printed again.
pub fn printed(alloc: Global, case: &str) -> Result<String, Fail> {
    let text = bytes_of(alloc, report_of(case))?;
    let report = read(alloc, &text)?;
    let again = print(alloc, &report)?;
    let is_same = again.as_slice() == text.as_slice();
    let (nodes, facts) = (report.nodes.len(), report.facts.len());
    Ok(format!(in alloc;
        "{} {nodes} {facts} {} {is_same}",
        report.form, report.count_bound
    )?)
}
