//! A source and an output that take so many bytes at a time and are interrupted, read and written whole.

ghost use Rattle.std.specs.Prelude.{◌≡◌, ◌≤◌, ◌<◌, None, Some, length, ⊤};

use crate::tables::{hold, number, part};
use flow_base::{Output, ReadError, Refusal, Source, WriteError, read_whole, write_whole};
use std::alloc::{AllocError, Global};
use std::io::{Error, ErrorKind};
use std::test::Fail;

// A pipe with these bytes left, or that took these. It passes so many bytes at a time, each second call is interrupted
// where it says so, and after so many bytes each call is refused for this reason.
#[derive(Drop)]
struct Pipe {
    at_a_time: usize,
    is_interrupted: bool,
    refused_after: usize,
    refusal: Refusal,
    bytes: Vec<u8>,
    at: usize,
    patience: u32,
}

impl Pipe {
    // Why this call is refused, if it is.
    fn refused(&mut self, passed: usize) -> Option<Refusal>
        ensures patient { self.new.patience ≤ self.old.patience }
        ensures interrupted { result ≡ Some Refusal.Interrupted → self.new.patience < self.old.patience }
    {
        if self.is_interrupted && self.patience % 2 == 1 {
            self.patience -= 1;
            return Some(Refusal::Interrupted);
        }
        self.patience = self.patience.saturating_sub(1);
        if passed < self.refused_after {
            return None;
        }
        match self.refusal {
            Refusal::Memory => Some(Refusal::Memory),
            _ => Some(Refusal::Failed),
        }
    }
}

// Puts the bytes from a place into the piece, at most so many, and tells how many.
fn put(bytes: &[u8], at: usize, most: usize, piece: &mut [u8]) -> usize
    ensures { result ≤ length piece.new }
{
    let mut count = 0;
    while count < piece.len() && count < most {
        let Some(byte) = bytes.get(at.saturating_add(count)) else {
            return count;
        };
        piece[count] = *byte;
        count += 1;
    }
    count
}

impl Source for Pipe {
    ghost left = { λ _. None };

    ghost fails = { λ _. ⊤ };

    ghost patience = { λ pipe. pipe.patience };

    fn read(&mut self, piece: &mut [u8]) -> Result<usize, Refusal> {
        let at = self.at;
        if let Some(refusal) = self.refused(at) {
            return Err(refusal);
        }
        let count = put(&self.bytes, at, self.at_a_time, piece);
        self.at = at.saturating_add(count);
        Ok(count)
    }
}

impl Output for Pipe {
    ghost taken = { λ _. None };

    ghost fails = { λ _. ⊤ };

    ghost patience = { λ pipe. pipe.patience };

    fn write(&mut self, bytes: &[u8]) -> Result<usize, Refusal> {
        let taken = self.bytes.len();
        if let Some(refusal) = self.refused(taken) {
            return Err(refusal);
        }
        let count = bytes.len().min(self.at_a_time);
        let (piece, _) = bytes.split_at(count);
        match self.bytes.extend_from_slice(piece) {
            Ok(()) => Ok(count),
            Err(_) => Err(Refusal::Memory),
        }
    }
}

/// Bytes of which no two pieces are alike.
pub fn some_bytes(alloc: Global, count: u32) -> Result<Vec<u8>, AllocError> {
    let mut bytes = Vec::new(alloc);
    for number in 0..count {
        bytes.push((number % 251) as u8)?;
    }
    Ok(bytes)
}

// The pipe with these bytes of which a row begins with the manner: how many bytes it passes at a time, whether it is
// interrupted (`broken`) or is refused for want of memory (`hungry`), and after how many bytes it is refused.
fn pipe_with(row: &str, bytes: Vec<u8>) -> Pipe {
    let refusal = match part(row, " ", 1) {
        "hungry" => Refusal::Memory,
        _ => Refusal::Failed,
    };
    Pipe {
        at_a_time: number(part(row, " ", 0)) as usize,
        is_interrupted: part(row, " ", 1) == "broken",
        refused_after: number(part(row, " ", 2)) as usize,
        refusal,
        bytes,
        at: 0,
        patience: u32::MAX,
    }
}

/// Whether a read gave these bytes.
pub fn read_told(read: &Result<Vec<u8>, ReadError>, wanted: &[u8]) -> &'static str {
    match read {
        Ok(bytes) => {
            if bytes.as_slice() == wanted {
                "same"
            } else {
                "other"
            }
        }
        Err(ReadError::Failed) => "failed",
        Err(ReadError::TooLong(_)) => "too long",
        Err(ReadError::Memory) => "memory",
    }
}

/// What is told of a pipe, how many bytes it has, and the most that is wanted.
pub fn reader_told(alloc: Global, asked: &str) -> Result<String, AllocError> {
    let wanted = some_bytes(alloc, number(part(asked, " ", 3)))?;
    let pipe = pipe_with(asked, some_bytes(alloc, number(part(asked, " ", 3)))?);
    let most = part(asked, " ", 4).parse::<u64>().unwrap_or(0);
    let read = read_whole(pipe, alloc, most);
    String::from_str(alloc, read_told(&read, &wanted))
}

// How many bytes a pipe passes at a time, whether it is broken by interruptions, after how many bytes it fails, how
// many it has, and the most that is wanted.
static READERS: &str = "\
48 reader
1000000 steady 1000000 0 0 => same
1000000 steady 1000000 1 0 => too long
1000000 steady 1000000 1 1 => same
1000000 steady 1000000 2 1 => too long
1000000 steady 1000000 4095 4095 => same
1000000 steady 1000000 4096 4095 => too long
1000000 steady 1000000 4096 4096 => same
1000000 steady 1000000 4097 4096 => too long
1000000 steady 1000000 4097 4097 => same
1000000 steady 1000000 4098 4097 => too long
1000000 steady 1000000 8193 8193 => same
1000000 steady 1000000 8194 8193 => too long
1 steady 1000000 0 0 => same
1 steady 1000000 1 0 => too long
1 steady 1000000 1 1 => same
1 steady 1000000 2 1 => too long
1 steady 1000000 4095 4095 => same
1 steady 1000000 4096 4095 => too long
1 steady 1000000 4096 4096 => same
1 steady 1000000 4097 4096 => too long
1 steady 1000000 4097 4097 => same
1 steady 1000000 4098 4097 => too long
1 steady 1000000 8193 8193 => same
1 steady 1000000 8194 8193 => too long
7 broken 1000000 0 0 => same
7 broken 1000000 1 0 => too long
7 broken 1000000 1 1 => same
7 broken 1000000 2 1 => too long
7 broken 1000000 4095 4095 => same
7 broken 1000000 4096 4095 => too long
7 broken 1000000 4096 4096 => same
7 broken 1000000 4097 4096 => too long
7 broken 1000000 4097 4097 => same
7 broken 1000000 4098 4097 => too long
7 broken 1000000 8193 8193 => same
7 broken 1000000 8194 8193 => too long
1000000 steady 1000000 10 18446744073709551615 => same
1 steady 0 5000 5000 => failed
1 steady 5 5000 5000 => failed
1 steady 4096 5000 5000 => failed
1 hungry 5 5000 5000 => memory
8191 steady 1000000 8192 8192 => same
8192 steady 1000000 8192 8192 => same
8193 steady 1000000 8193 8192 => too long
7 steady 1000000 200000 200000 => same
7 broken 1000000 200000 200000 => same
100000 broken 1000000 200000 200000 => same
100000 broken 1000000 200001 200000 => too long";

#[test]
fn a_reader_is_read_to_its_end_or_gives_no_bytes(rt: HostRuntime) -> Result<(), Fail> {
    hold(rt.alloc(), READERS)
}

/// What is told of a pipe and of how many bytes are written to it: all of them, or how many of the first.
pub fn writer_told(alloc: Global, asked: &str) -> Result<String, AllocError> {
    let bytes = some_bytes(alloc, number(part(asked, " ", 3)))?;
    let mut writer = pipe_with(asked, Vec::new(alloc));
    let written = write_whole(&mut writer, &bytes);
    let taken = writer.bytes.as_slice();
    if written.is_ok() && taken == bytes.as_slice() {
        return String::from_str(alloc, "same");
    }
    if written == Err(WriteError::Failed) && bytes.starts_with(taken) {
        return format!(in alloc; "failed {}", taken.len());
    }
    String::from_str(alloc, "other")
}

// How many bytes a pipe passes at a time, whether it is broken by interruptions, after how many bytes it fails, and how
// many are written.
static WRITERS: &str = "\
23 writer
1000000 steady 1000000 0 => same
1000000 steady 1000000 1 => same
1000000 steady 1000000 4095 => same
1000000 steady 1000000 4096 => same
1000000 steady 1000000 4097 => same
1 steady 1000000 0 => same
1 steady 1000000 1 => same
1 steady 1000000 4095 => same
1 steady 1000000 4096 => same
1 steady 1000000 4097 => same
7 broken 1000000 0 => same
7 broken 1000000 1 => same
7 broken 1000000 4095 => same
7 broken 1000000 4096 => same
7 broken 1000000 4097 => same
7 broken 0 100 => failed 0
7 broken 14 100 => failed 14
7 broken 98 100 => failed 98
0 steady 1000000 100 => failed 0
1 hungry 5 100 => failed 5
1000000 steady 1000000 200000 => same
7 steady 1000000 200000 => same
65536 broken 1000000 200000 => same";

#[test]
fn a_writer_takes_all_or_a_prefix(rt: HostRuntime) -> Result<(), Fail> {
    hold(rt.alloc(), WRITERS)
}

/// What is told of an error of the system.
pub fn refusal_told(alloc: Global, asked: &str) -> Result<String, AllocError> {
    let kind = match asked {
        "interrupted" => ErrorKind::Interrupted,
        "out of memory" => ErrorKind::OutOfMemory,
        "not found" => ErrorKind::NotFound,
        _ => ErrorKind::BrokenPipe,
    };
    let told = match Refusal::of(&Error::from(kind)) {
        Refusal::Interrupted => "again",
        Refusal::Memory => "memory",
        Refusal::Failed => "failed",
    };
    String::from_str(alloc, told)
}

static REFUSALS: &str = "\
4 refusal
interrupted => again
out of memory => memory
not found => failed
broken pipe => failed";

#[test]
fn errors_of_the_system_are_refusals(rt: HostRuntime) -> Result<(), Fail> {
    hold(rt.alloc(), REFUSALS)
}
