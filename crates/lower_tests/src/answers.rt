//! What the tests share: words, files and answers.

use flow_base::{SureShelf, SureSink};
use std::alloc::{AllocError, Global};
use sweet_cli::run_in_memory;

/// A part of a row, where ` @ ` stands between two parts. Empty where it is not there.
pub fn part(row: &str, number: usize) -> &str {
    row.split(" @ ").nth(number).unwrap_or("")
}

/// The words of a line, parted by single spaces. An empty line has none.
pub fn words_of(alloc: Global, line: &str) -> Result<Vec<String>, AllocError> {
    let mut words = Vec::new(alloc);
    if line.is_empty() {
        return Ok(words);
    }
    for word in line.split(' ') {
        words.push(String::from_str(alloc, word)?)?;
    }
    Ok(words)
}

/// The text, with a line feed in place of each such character.
pub fn lines_of(alloc: Global, text: &str, mark: u8) -> Result<Vec<u8>, AllocError> {
    let mut bytes = Vec::new(alloc);
    for byte in text.as_bytes() {
        bytes.push(if *byte == mark { b'\n' } else { *byte })?;
    }
    Ok(bytes)
}

/// A file with this name and these bytes, and no other.
pub fn file_of(
    alloc: Global,
    name: &str,
    bytes: &[u8],
) -> Result<Vec<(String, Vec<u8>)>, AllocError> {
    let mut files = Vec::new(alloc);
    files.push((String::from_str(alloc, name)?, bytes.to_vec(alloc)?))?;
    Ok(files)
}

/// The files `a.c`, `i.toml` and `c.toml`. A semicolon ends a line of inputs and of costs.
pub fn three_files(
    alloc: Global,
    unit: &[u8],
    inputs: &str,
    costs: &str,
) -> Result<Vec<(String, Vec<u8>)>, AllocError> {
    let mut files = file_of(alloc, "a.c", unit)?;
    files.push((
        String::from_str(alloc, "i.toml")?,
        lines_of(alloc, inputs, b';')?,
    ))?;
    files.push((
        String::from_str(alloc, "c.toml")?,
        lines_of(alloc, costs, b';')?,
    ))?;
    Ok(files)
}

/// What answers the line over these files: the code, a space, and the text.
pub fn answer(
    alloc: Global,
    line: &str,
    files: Vec<(String, Vec<u8>)>,
) -> Result<String, AllocError> {
    let words = words_of(alloc, line)?;
    let mut shelf = SureShelf::new(files);
    let mut out = SureSink::new(alloc);
    let status = run_in_memory(alloc, &words, &mut shelf, &mut out);
    let mut told = format!(in alloc; "{} ", status.code())?;
    for byte in out.bytes() {
        told.push(char::from(*byte))?;
    }
    Ok(told)
}

/// The same, with a semicolon in place of each line feed.
pub fn told(
    alloc: Global,
    line: &str,
    files: Vec<(String, Vec<u8>)>,
) -> Result<String, AllocError> {
    let text = answer(alloc, line, files)?;
    let mut told = String::new(alloc);
    for letter in text.chars() {
        told.push(if letter == '\n' { ';' } else { letter })?;
    }
    Ok(told)
}
