//! Loads after events, by hand.

use crate::operators::{value_of, value_told};
use crate::tables::{hold, number, part};
use alf_ops::{FrameShape, RunEvent, load_after};
use std::alloc::{AllocError, Global};
use std::test::Fail;

// Frames, each by its function, or a dash, and its bits.
fn frames_of(alloc: Global, words: &str) -> Result<Vec<FrameShape>, AllocError> {
    let mut frames = Vec::new(alloc);
    for word in words.split(' ') {
        frames.push(FrameShape {
            owner: part(word, ":", 0).parse::<u32>().ok(),
            bits: number(part(word, ":", 1)),
        })?;
    }
    Ok(frames)
}

// The event of a line.
fn event_of(line: &str) -> RunEvent {
    let function = number(part(line, " ", 1));
    match part(line, " ", 0) {
        "enter" => RunEvent::Enter(function),
        "leave" => RunEvent::Leave(function),
        _ => RunEvent::Store {
            frame: number(part(part(line, " ", 1), "+", 0)),
            offset: number(part(part(line, " ", 1), "+", 1)),
            size: number(part(line, " ", 2)),
            value: value_of(part(line, " ", 3)),
        },
    }
}

// What is told after these events, the newest first, of how many of them have not happened yet, of an address, and of a
// size: what a load gives.
fn load_of(alloc: Global, frames: &str, events: &str, asked: &str) -> Result<String, AllocError> {
    let frames = frames_of(alloc, frames)?;
    let mut history = Vec::new(alloc);
    for line in events.lines().skip(number(part(asked, " ", 0)) as usize) {
        history.push(event_of(line))?;
    }
    let (place, size) = (value_of(part(asked, " ", 1)), number(part(asked, " ", 2)));
    if size < 8 || size > 64 {
        return String::from_str(alloc, "there is no such cell");
    }
    value_told(alloc, load_after(&frames, &history, place, size))
}

// A store has a frame and an offset, a size, and a value.
static EVENTS: &str = "\
store 1+0 32 32:6
enter 7
leave 8
enter 8
leave 7
store 1+0 32 32:5
enter 7
store 0+2 8 8:9
store 0+4 32 32:4
store 0+0 32 32:3
store 0+4 32 32:2
";

/// What a load gives after events of functions that are entered and left.
pub fn load_told(alloc: Global, asked: &str) -> Result<String, AllocError> {
    load_of(alloc, "-:64 7:32 8:32", EVENTS, asked)
}

// How many of the newest events have not happened yet, the cell's place and size, what a load of it gives, and why.
static LOADS: &str = "\
21 load
0 3+0 32 => dead // there is no such frame
0 2+0 32 => dead // the function was left
0 2+8 32 => dead // dead comes before bounds
3 2+0 32 => uninit // the function was entered, and nothing stored
4 1+0 32 => dead // the newest event of the function is that it was left
5 1+0 32 => 32:5 // the newest store of the cell
0 1+0 32 => 32:6 // a store after the function was entered again
1 1+0 32 => uninit // what was stored before it was entered again is gone
0 0+4 32 => 32:4 // the newest of two stores
9 0+4 32 => 32:2 // the older of them, before the newer
0 0+0 32 => 32:589827 // 3 with 9 in its third byte
8 0+0 32 => 32:3 // before that store
0 0+2 8 => 8:9 // the narrow cell
8 0+0 64 => 64:17179869187 // 4 above 3
8 0+0 16 => 16:3 // the low half of 3
0 0+5 32 => bounds // one byte too far
0 0+4 64 => bounds // four bytes too far
0 0+4294967295 8 => bounds // the greatest offset
11 0+0 32 => uninit // before any event
11 0+5 32 => bounds // bounds comes before uninit
0 32:4 32 => kind // a word is no address";

#[test]
fn a_load_answers_by_the_events(rt: HostRuntime) -> Result<(), Fail> {
    hold(rt.alloc(), LOADS)
}

// Stores that share bytes. Afterwards the bytes of frame 0 are, from offset 0 on, 01 02 03 cd ab 06 ef be 11, then
// three of the pointer, then four without a store.
static OVERLAPS: &str = "\
store 0+8 8 8:17
store 0+8 32 2+8
store 0+6 16 16:48879
store 0+3 16 16:43981
store 0+0 64 64:578437695752307201
store 1+0 8 8:5
";

/// What a load gives after stores that share bytes.
pub fn overlap_told(alloc: Global, asked: &str) -> Result<String, AllocError> {
    load_of(alloc, "-:128 -:32", OVERLAPS, asked)
}

static OVERLAP_LOADS: &str = "\
19 overlap
0 0+0 64 => 64:13758222721588855297 // eight bytes of three stores
0 0+2 16 => 16:52483 // two bytes of two stores
0 0+3 16 => 16:43981 // the very cell of a store
0 0+4 16 => 16:1707 // the high byte of one store below a byte of an older one
0 0+7 8 => 8:190 // the high byte of a store
0 0+6 8 => 8:239 // the low byte of a store
3 0+2 16 => 16:52483 // before the newer of two stores
4 0+0 64 => 64:578437695752307201 // the whole store
4 0+1 32 => 32:84148994 // bytes within one store
1 0+8 32 => 2+8 // the pointer
1 0+8 8 => mixed // a byte of a pointer
1 0+6 32 => mixed // bytes of a word and of a pointer
1 0+8 64 => uninit // uninit comes before mixed
0 0+8 32 => mixed // a pointer with a byte of a word in it
0 0+8 8 => 8:17 // that byte
0 0+8 16 => mixed // that byte and one of the pointer
0 0+11 16 => uninit // a byte of the pointer and one without a store
0 1+0 32 => uninit // one byte of four has a store
0 1+0 8 => 8:5 // the byte that has it";

#[test]
fn a_load_reads_the_bytes_of_several_stores(rt: HostRuntime) -> Result<(), Fail> {
    hold(rt.alloc(), OVERLAP_LOADS)
}
