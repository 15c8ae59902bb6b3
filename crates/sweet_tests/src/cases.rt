//! Cases as text: words, files and devices, and what answers them.

use crate::checks::{report_of, row_of};
use crate::notation::program_of;
use crate::programs::program_named;
use crate::texts::text_named;
use flow_base::{MemoryShelf, MemorySink, Shelf, SureShelf, SureSink};
use std::alloc::{AllocError, Global};
use sweet_cli::{run, run_in_memory};

/// A program whose function returns at once.
const RETURNS: &str =
    "{ alf { macro_defs } { least_addr_unit 8 } little_endian { exports { frefs } { lrefs } } { imports { frefs } { lrefs } } { decls } { inits } { funcs { func { label 32 { lref 32 \"main\" } { dec_unsigned 32 0 } } { arg_decls } { scope { decls } { inits } { stmts { return } } } } } }";

/// A part of a line, where ` | ` stands between two parts. Empty where it is not there.
pub fn field(line: &str, number: usize) -> &str {
    line.split(" | ").nth(number).unwrap_or("")
}

/// What stands before ` => `, and what stands after it. Empty where it is not there.
pub fn side(line: &str, number: usize) -> &str {
    line.split(" => ").nth(number).unwrap_or("")
}

/// The line, and what stands behind it. Empty where it is not there.
pub fn split_line(text: &str, number: usize) -> &str {
    text.splitn(2, '\n').nth(number).unwrap_or("")
}

/// The number that a text writes, or 0.
pub fn number_of(text: &str) -> u64 {
    text.parse::<u64>().unwrap_or(0)
}

// The words of a line, parted by single spaces. An empty line has none.
fn words_of(alloc: Global, line: &str) -> Result<Vec<String>, AllocError> {
    let mut words = Vec::new(alloc);
    if line.is_empty() {
        return Ok(words);
    }
    for word in line.split(' ') {
        words.push(String::from_str(alloc, word)?)?;
    }
    Ok(words)
}

// The text, with a line feed in place of each semicolon.
fn lines_of(alloc: Global, text: &str) -> Result<Vec<u8>, AllocError> {
    let mut bytes = Vec::new(alloc);
    for byte in text.as_bytes() {
        bytes.push(if *byte == b';' { b'\n' } else { *byte })?;
    }
    Ok(bytes)
}

/// Adds the text with this number in place of each `~`, and the next one in place of each `~+`.
pub fn push_numbered(all: &mut String, text: &str, number: u64) -> Result<(), AllocError> {
    for (at, piece) in text.split('~').enumerate() {
        if at == 0 {
            all.push_str(piece)?;
            continue;
        }
        let alloc = *all.allocator();
        let told = match piece.strip_prefix('+') {
            Some(rest) => format!(in alloc; "{}{rest}", number.saturating_add(1))?,
            None => format!(in alloc; "{number}{piece}")?,
        };
        all.push_str(told.as_str())?;
    }
    Ok(())
}

// The pieces, with ` & ` between two: each has a count and a text, which comes so often, with a space behind it.
// The texts are numbered from 0, all through.
fn repeated(alloc: Global, pieces: &str) -> Result<String, AllocError> {
    let mut all = String::new(alloc);
    let mut number: u64 = 0;
    for piece in pieces.split(" & ") {
        let mut parts = piece.splitn(2, ' ');
        let count = number_of(parts.next().unwrap_or(""));
        let text = parts.next().unwrap_or("");
        for _ in 0..count {
            push_numbered(&mut all, text, number)?;
            all.push(' ')?;
            number = number.saturating_add(1);
        }
    }
    Ok(all)
}

// So many bytes of a character, for which `space` and `feed` are names.
fn filled_with(alloc: Global, asked: &str) -> Result<Vec<u8>, AllocError> {
    let mut parts = asked.split(' ');
    let count = number_of(parts.next().unwrap_or(""));
    let byte = match parts.next().unwrap_or("") {
        "space" => b' ',
        "feed" => b'\n',
        word => word.as_bytes().first().copied().unwrap_or(0),
    };
    vec![in alloc; byte; count as usize]
}

/// The text with `new` in place of each `old`.
pub fn replaced(alloc: Global, text: &str, old: &str, new: &str) -> Result<String, AllocError> {
    let mut all = String::new(alloc);
    for (at, part) in text.split(old).enumerate() {
        if at > 0 {
            all.push_str(new)?;
        }
        all.push_str(part)?;
    }
    Ok(all)
}

// The program that returns at once, with another token of this number, or without it.
fn with_token(alloc: Global, asked: &str) -> Result<String, AllocError> {
    let mut text = String::new(alloc);
    for (at, token) in RETURNS.split(' ').enumerate() {
        let token = if at as u64 == number_of(field(asked, 0)) {
            field(asked, 1)
        } else {
            token
        };
        if !token.is_empty() {
            text.push_str(token)?;
            text.push(' ')?;
        }
    }
    Ok(text)
}

// The text of a program, told in this way.
fn program_text(alloc: Global, kind: &str, asked: &str) -> Result<String, AllocError> {
    match kind {
        "alf" => program_of(alloc, field(asked, 0), field(asked, 1), field(asked, 2)),
        "alfs" => program_of(alloc, "-", "-", repeated(alloc, asked)?.as_str().trim_end()),
        "but" => replaced(alloc, RETURNS, field(asked, 0), field(asked, 1)),
        "spaced" => replaced(alloc, RETURNS, " ", asked),
        "token" => with_token(alloc, asked),
        "times" => repeated(alloc, asked),
        "named" => String::from_str(alloc, program_named(asked)),
        "subject" => String::from_str(alloc, program_named(field(row_of(asked), 1))),
        "whole" => String::from_str(alloc, text_named(asked)),
        _ => String::from_str(alloc, asked),
    }
}

// The bytes of a file that is told in this way.
fn whole_of(alloc: Global, kind: &str, asked: &str) -> Result<Vec<u8>, AllocError> {
    match kind {
        "fill" => filled_with(alloc, asked),
        "text" => lines_of(alloc, asked),
        "ranges" => lines_of(alloc, field(side(row_of(asked), 0), 2)),
        "rows" => lines_of(alloc, repeated(alloc, asked)?.as_str()),
        "report" | "plain" | "events" => lines_of(alloc, report_of(alloc, kind, asked)?.as_str()),
        "spaced" => lines_of(alloc, program_text(alloc, kind, asked)?.as_str()),
        _ => Ok(program_text(alloc, kind, asked)?.into_bytes()),
    }
}

// The bytes up to the end of so many lines.
fn lines_taken(bytes: &[u8], count: usize) -> usize {
    let mut taken: usize = 0;
    for line in bytes.split(|byte| *byte == b'\n').take(count) {
        taken = taken.saturating_add(line.len()).saturating_add(1);
    }
    taken
}

// The bytes of a file that is cut after so many bytes or lines, or whose byte of this number is none of a text.
fn damaged(alloc: Global, how: &str, asked: &str) -> Result<Vec<u8>, AllocError> {
    let number = number_of(asked.splitn(3, ' ').nth(0).unwrap_or("")) as usize;
    let kind = asked.splitn(3, ' ').nth(1).unwrap_or("");
    let mut bytes = whole_of(alloc, kind, asked.splitn(3, ' ').nth(2).unwrap_or(""))?;
    match how {
        "cut" => bytes.truncate(number),
        "lines" => bytes.truncate(lines_taken(&bytes, number)),
        _ => {
            if let Some(byte) = bytes.get_mut(number) {
                *byte = 255;
            }
        }
    }
    Ok(bytes)
}

/// The name and the bytes of a file, told in a line: the name, how it is told, and what is told of it.
pub fn file_of(alloc: Global, line: &str) -> Result<(String, Vec<u8>), AllocError> {
    let name = String::from_str(alloc, line.splitn(3, ' ').nth(0).unwrap_or(""))?;
    let kind = line.splitn(3, ' ').nth(1).unwrap_or("");
    let asked = line.splitn(3, ' ').nth(2).unwrap_or("");
    let bytes = match kind {
        "cut" | "lines" | "spoilt" => damaged(alloc, kind, asked)?,
        _ => whole_of(alloc, kind, asked)?,
    };
    Ok((name, bytes))
}

// The files of a case.
fn files_of(alloc: Global, case: &str) -> Result<Vec<(String, Vec<u8>)>, AllocError> {
    let mut files = Vec::new(alloc);
    for line in case.split('\n').skip(1) {
        if !line.starts_with("fail ") {
            files.push(file_of(alloc, line)?)?;
        }
    }
    Ok(files)
}

/// A code and a text, with a semicolon in place of each line feed.
pub fn told_as(alloc: Global, code: u8, text: &[u8]) -> Result<String, AllocError> {
    let mut told = format!(in alloc; "{code} ")?;
    for byte in text {
        told.push(if *byte == b'\n' {
            ';'
        } else {
            char::from(*byte)
        })?;
    }
    Ok(told)
}

// What is told where a read and a write are to fail: which read, after how many bytes of a write, and which write
// where it is not the first. What is told begins with the name that the shelf keeps.
fn told_failing(alloc: Global, case: &str, asked: &str) -> Result<String, AllocError> {
    let words = words_of(alloc, split_line(case, 0))?;
    let mut reads = Vec::new(alloc);
    if let Ok(number) = asked.split(' ').nth(0).unwrap_or("").parse::<u64>() {
        reads.push(number)?;
    }
    let mut writes = Vec::new(alloc);
    if let Ok(count) = asked.split(' ').nth(1).unwrap_or("").parse::<u64>() {
        writes.push((number_of(asked.split(' ').nth(2).unwrap_or("")), count))?;
    }
    let mut shelf = MemoryShelf::new(files_of(alloc, case)?, reads);
    let mut out = MemorySink::new(alloc, writes);
    let status = run(alloc, &words, &mut shelf, &mut out);
    let told = told_as(alloc, status.code(), out.bytes())?;
    match shelf.failed() {
        Some(name) => format!(in alloc; "{name}: {told}"),
        None => Ok(told),
    }
}

/// The code and the text that answer a case, with a semicolon in place of each line feed.
pub fn told_of(alloc: Global, case: &str) -> Result<String, AllocError> {
    let devices = case.split("\nfail ").nth(1).unwrap_or("");
    if !devices.is_empty() {
        return told_failing(alloc, case, devices);
    }
    let words = words_of(alloc, split_line(case, 0))?;
    let mut shelf = SureShelf::new(files_of(alloc, case)?);
    let mut out = SureSink::new(alloc);
    let status = run_in_memory(alloc, &words, &mut shelf, &mut out);
    told_as(alloc, status.code(), out.bytes())
}
