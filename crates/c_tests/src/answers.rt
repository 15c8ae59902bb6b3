//! What the tests share: what is told of a text by the reader and by the checks, and texts from a short notation.

use c_check::{CFault, CProgram, check};
use c_text::{CTextFault, CUnit, print, read};
use flow_base::{Name, Which};
use std::alloc::{AllocError, Global};

/// A part of a line, where ` @ ` stands between two parts. Empty where it is not there.
pub fn field(line: &str, number: usize) -> &str {
    line.split(" @ ").nth(number).unwrap_or("")
}

fn quantity(which: &Which) -> &'static str {
    match which {
        Which::Depth => "depth",
        Which::Functions => "functions",
        Which::Frames => "frames",
        Which::Parens => "parens",
        Which::Nesting => "nesting",
        Which::Elements => "elements",
        Which::Statements => "statements",
        Which::Tasks => "tasks",
        _ => "other",
    }
}

/// What is told of a text: `ok`, or the kind of the fault with its line and column and the token, or the
/// quantity and its number.
pub fn told(alloc: Global, answer: &Result<CUnit, CTextFault>) -> Result<Vec<u8>, AllocError> {
    match answer {
        Ok(_) => b"ok".as_slice().to_vec(alloc),
        Err(CTextFault::Syntax(place)) => {
            let text = format!(in alloc; "syntax {} {}", place.line, place.column)?;
            text.as_bytes().to_vec(alloc)
        }
        Err(CTextFault::Number(place)) => {
            let text = format!(in alloc; "number {} {}", place.line, place.column)?;
            text.as_bytes().to_vec(alloc)
        }
        Err(CTextFault::OutOfProfile(place, word)) => {
            let text = format!(in alloc; "outside {} {} ", place.line, place.column)?;
            let mut all = text.as_bytes().to_vec(alloc)?;
            all.extend_from_slice(word.bytes())?;
            Ok(all)
        }
        Err(CTextFault::Limit(which, count)) => {
            let text = format!(in alloc; "limit {} {}", quantity(which), count)?;
            text.as_bytes().to_vec(alloc)
        }
        Err(CTextFault::Memory) => b"memory".as_slice().to_vec(alloc),
    }
}

/// The canonical text of what is read, or nothing where the text departs from the grammar.
pub fn printed(alloc: Global, text: &[u8]) -> Result<Vec<u8>, AllocError> {
    match read(alloc, text) {
        Ok(unit) => print(alloc, &unit),
        Err(_) => Ok(Vec::new(alloc)),
    }
}

/// The text as often as the count says.
pub fn push_times(text: &mut String, part: &str, count: usize) -> Result<(), AllocError> {
    for _ in 0..count {
        text.push_str(part)?;
    }
    Ok(())
}

/// The text of parts with ` ~ ` between two of them, where `N#PART` stands for N times PART.
pub fn text_of(alloc: Global, parts: &str) -> Result<String, AllocError> {
    let mut text = String::new(alloc);
    for part in parts.split(" ~ ") {
        let first = part.split('#').next().unwrap_or("");
        match part.split('#').nth(1) {
            Some(repeated) => {
                let count = first.parse::<usize>().unwrap_or(0);
                push_times(&mut text, repeated, count)?;
            }
            None => text.push_str(part)?,
        }
    }
    Ok(text)
}

/// Whether the checks tell of the text of a line what is due, which stands after ` @ `.
pub fn stands(alloc: Global, row: &str) -> Result<bool, AllocError> {
    let found = checked(alloc, field(row, 0))?;
    Ok(found.as_slice() == field(row, 1).as_bytes())
}

// What the checks tell of a text whose root is `main`.
fn checked(alloc: Global, text: &str) -> Result<Vec<u8>, AllocError> {
    match read(alloc, text.as_bytes()) {
        Ok(unit) => judged(alloc, &check(alloc, unit, "main")),
        Err(_) => b"unread".as_slice().to_vec(alloc),
    }
}

fn judged(alloc: Global, found: &Result<CProgram, CFault>) -> Result<Vec<u8>, AllocError> {
    match found {
        Ok(_) => b"ok".as_slice().to_vec(alloc),
        Err(CFault::UnknownName(name)) => named(alloc, b"unknown ", name),
        Err(CFault::Duplicate(name)) => named(alloc, b"twice ", name),
        Err(CFault::Mistyped(place)) => {
            let text = format!(in alloc; "wrong {} {}", place.line, place.column)?;
            text.as_bytes().to_vec(alloc)
        }
        Err(CFault::Recursion(names)) => cycle(alloc, names),
        Err(CFault::Root(name)) => named(alloc, b"root ", name),
        Err(CFault::Memory) => b"memory".as_slice().to_vec(alloc),
    }
}

fn named(alloc: Global, word: &[u8], name: &Name) -> Result<Vec<u8>, AllocError> {
    let mut all = word.to_vec(alloc)?;
    all.extend_from_slice(name.bytes())?;
    Ok(all)
}

fn cycle(alloc: Global, names: &[Name]) -> Result<Vec<u8>, AllocError> {
    let mut all = b"cycle".as_slice().to_vec(alloc)?;
    for name in names {
        all.push(b' ')?;
        all.extend_from_slice(name.bytes())?;
    }
    Ok(all)
}
