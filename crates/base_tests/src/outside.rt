//! Digits, names and faults, shelves and sinks in memory, a folder, and the standard output.

use crate::streams::{read_told, some_bytes};
use crate::tables::{due_of, hold, number, part};
use alf_ops::Divide;
use flow_base::{
    FolderShelf, MemoryShelf, MemorySink, Name, ReadError, Shelf, Sink, StdSink, SureShelf,
    SureSink, WriteError, digits,
};
use std::alloc::{AllocError, Global};
use std::fs;
use std::test::Fail;

/// What is told of a text, of a place in it, and of the most that a number may be.
pub fn digits_told(alloc: Global, asked: &str) -> Result<String, AllocError> {
    let text = part(asked, " | ", 0);
    let at = number(part(asked, " | ", 1)) as usize;
    let most = part(asked, " | ", 2).parse::<u128>().unwrap_or(0);
    if at > text.len() {
        return String::from_str(alloc, "there is no such place");
    }
    match digits(text.as_bytes(), at, most) {
        Some((number, place)) => format!(in alloc; "{number} {place}"),
        None => String::from_str(alloc, "none"),
    }
}

// A text, a place in it, the most that is wanted, and the number and the place after it.
static DIGITS: &str = "\
7 digits
12x | 0 | 100 => 12 2
a007 | 1 | 7 => 7 4
a008 | 1 | 7 => none
x | 0 | 9 => none
 | 0 | 9 => none
340282366920938463463374607431768211455 | 0 | 340282366920938463463374607431768211455 => \
340282366920938463463374607431768211455 39
340282366920938463463374607431768211456 | 0 | 340282366920938463463374607431768211455 => none";

#[test]
fn digits_are_the_longest_list(rt: HostRuntime) -> Result<(), Fail> {
    hold(rt.alloc(), DIGITS)
}

/// What is told of a text that is made a name.
pub fn name_told(alloc: Global, asked: &str) -> Result<String, AllocError> {
    let name = Name::new(alloc, asked.as_bytes())?;
    String::from_str(alloc, str::from_utf8(name.bytes()).unwrap_or("no text"))
}

#[test]
fn a_name_keeps_its_bytes(rt: HostRuntime) -> Result<(), Fail> {
    hold(rt.alloc(), "1 name\nmain => main")
}

/// The text of a fault.
pub fn fault_told(alloc: Global, asked: &str) -> Result<String, AllocError> {
    match asked {
        "read failed" => format!(in alloc; "{}", ReadError::Failed),
        "read too long" => format!(in alloc; "{}", ReadError::TooLong(7)),
        "read memory" => format!(in alloc; "{}", ReadError::Memory),
        "write failed" => format!(in alloc; "{}", WriteError::Failed),
        "write memory" => format!(in alloc; "{}", WriteError::Memory),
        _ => format!(in alloc; "{Divide}"),
    }
}

static FAULTS: &str = "\
6 fault
read failed => the file could not be read
read too long => the file has more than 7 bytes
read memory => out of memory
write failed => the write failed
write memory => out of memory
divide => division by 0";

#[test]
fn a_fault_has_a_text(rt: HostRuntime) -> Result<(), Fail> {
    hold(rt.alloc(), FAULTS)
}

// The files "a" and "b", and a second "a".
fn three_files(alloc: Global) -> Result<Vec<(String, Vec<u8>)>, AllocError> {
    let mut files = Vec::new(alloc);
    for file in "a first,b other,a later".split(',') {
        let bytes = part(file, " ", 1).as_bytes().to_vec(alloc)?;
        files.push((String::from_str(alloc, part(file, " ", 0))?, bytes))?;
    }
    Ok(files)
}

// What each read gives: the bytes or why there are none, how many reads have failed, and which failed last.
fn reads_told<S: Shelf>(alloc: Global, shelf: &mut S, reads: &str) -> Result<String, AllocError> {
    let mut text = String::new(alloc);
    for asked in reads.split("; ") {
        let (name, limit) = (part(asked, " ", 0), number(part(asked, " ", 1)));
        let one = match shelf.read(alloc, name, u64::from(limit)) {
            Ok(bytes) => format!(in alloc; "'{}'", str::from_utf8(&bytes).unwrap_or("no text"))?,
            Err(fault) => format!(in alloc; "{fault}")?,
        };
        let (faults, failed) = (shelf.faults(), shelf.failed().unwrap_or("-"));
        text.push_str(format!(in alloc; "{one} {faults} {failed};")?.as_str())?;
    }
    Ok(text)
}

/// What is told of reads of a shelf that never fails, or of one whose read 1 is to fail.
pub fn shelf_told(alloc: Global, asked: &str) -> Result<String, AllocError> {
    let reads = part(asked, " | ", 1);
    if part(asked, " | ", 0) == "sure" {
        let mut shelf = SureShelf::new(three_files(alloc)?);
        return reads_told(alloc, &mut shelf, reads);
    }
    let mut shelf = MemoryShelf::new(three_files(alloc)?, [1].to_vec(alloc)?);
    reads_told(alloc, &mut shelf, reads)
}

// A shelf of a with `first`, b with `other` and a with `later`, and reads, each of a name and the most bytes.
static SHELVES: &str = "\
2 shelf
sure | a 5; b 5; c 5; a 4 => 'first' 0 -;'other' 0 -;'' 0 -;the file has more than 4 bytes 0 -;
failing | a 100; b 100; b 100; c 100 => \
'first' 0 -;the file could not be read 1 b;'other' 1 b;the file could not be read 2 c;";

#[test]
fn a_shelf_fails_where_it_is_told_to(rt: HostRuntime) -> Result<(), Fail> {
    hold(rt.alloc(), SHELVES)
}

/// What is told of writes to a sink that never fails: the bytes, and how many writes have failed.
pub fn sure_sink_told(alloc: Global, asked: &str) -> Result<String, AllocError> {
    let mut sink = SureSink::new(alloc);
    for piece in asked.split(' ') {
        if sink.write_all(piece.as_bytes()).is_err() {
            return String::from_str(alloc, "failed");
        }
    }
    let bytes = str::from_utf8(sink.bytes()).unwrap_or("no text");
    format!(in alloc; "{bytes} {}", sink.faults())
}

/// What is told of writes to a sink of which writes 1, 2 and 3 are to fail after 2, 100 and 0 bytes: whether each is
/// taken, the bytes by then, and how many writes have failed.
pub fn sink_told(alloc: Global, asked: &str) -> Result<String, AllocError> {
    let mut sink = MemorySink::new(alloc, [(1, 2), (2, 100), (3, 0)].to_vec(alloc)?);
    let mut text = String::new(alloc);
    for piece in asked.split(' ') {
        let answer = match sink.write_all(piece.as_bytes()) {
            Ok(()) => "taken",
            Err(_) => "failed",
        };
        let bytes = str::from_utf8(sink.bytes()).unwrap_or("no text");
        let one = format!(in alloc; "{answer} {bytes} {};", sink.faults())?;
        text.push_str(one.as_str())?;
    }
    Ok(text)
}

#[test]
fn a_sure_sink_takes_all(rt: HostRuntime) -> Result<(), Fail> {
    hold(rt.alloc(), "1 sure_sink\nab c => abc 0")
}

static SINKS: &str = "\
1 sink
abc abc abc abc abc => taken abc 0;failed abcab 1;failed abcababc 2;failed abcababc 3;taken abcababcabc 3;";

#[test]
fn a_sink_takes_a_prefix_where_it_fails(rt: HostRuntime) -> Result<(), Fail> {
    hold(rt.alloc(), SINKS)
}

// How many bytes a file has, the most that is wanted, and what is read.
static FOLDER: &str = "\
0 0 => same
1 1 => same
4095 4095 => same
4096 4096 => same
4097 4097 => same
8193 8193 => same
9000 9000 => same
9000 8999 => too long
200000 200000 => same
200001 200000 => too long";

#[test]
fn a_folder_gives_the_files_of_the_system(rt: HostRuntime) -> Result<(), Fail> {
    let (alloc, name) = (rt.alloc(), "base_tests_folder.tmp");
    let mut shelf = FolderShelf::new(&rt);
    for row in FOLDER.lines() {
        let bytes = some_bytes(alloc, number(part(row, " ", 0)))?;
        fs::write(&rt, name, &bytes)?;
        let read = shelf.read(alloc, name, u64::from(number(part(row, " ", 1))));
        assert!(rt; read_told(&read, &bytes) == due_of("", row), "{row}");
    }
    assert!(rt; shelf.faults() == 0 && shelf.failed().is_none());
    fs::remove_file(&rt, name)?;
    let gone = shelf.read(alloc, name, 9000);
    assert!(rt; read_told(&gone, b"") == "failed");
    assert!(rt; shelf.faults() == 1 && shelf.failed() == Some(name));
    Ok(())
}

#[test]
fn the_standard_output_takes_all(rt: HostRuntime) -> Result<(), Fail> {
    let mut sink = StdSink::new(&rt);
    if sink.write_all(b"taken\n").is_err() || sink.faults() != 0 {
        return Err("the standard output takes nothing".into());
    }
    Ok(())
}
