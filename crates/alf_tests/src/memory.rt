//! The memory of a run, by calls: what loads give after stores, and after functions were entered
//! and left. A script is a row of steps that end with `;`, an address or a value is `word SIZE BITS`
//! or `ptr FRAME OFFSET`, and each step tells what it gave.

ghost use Rattle.std.specs.Prelude.{◌≡◌, ◌<◌, ◌≤◌, ◌^◌, length};

use crate::notation::fault_word;
use alf_check::Checked;
use alf_ops::Value;
use alf_values::{Frames, ValueFault};
use exec_toys::checked_text;
use std::alloc::{AllocError, Global};
use std::str::SplitWhitespace;
use std::test::Fail;

// Frame 0 is global and has 256 bits, frame 1 is global and has 32 bits, frame 2 is of function 0
// and frame 3 of function 1, and each of these has 64 bits.
const TEXT: &str = "\
{ alf { macro_defs } { least_addr_unit 8 } little_endian { exports { frefs } { lrefs } } { imports { frefs } { \
lrefs } } { decls { alloc 32 \"wide\" 256 } { alloc 32 \"one\" 32 } } { inits } { funcs { func { label 32 { lref 32 \
\"main\" } { dec_unsigned 32 0 } } { arg_decls } { scope { decls { alloc 32 \"own\" 64 } } { inits } { stmts { \
return } } } } { func { label 32 { lref 32 \"leaf\" } { dec_unsigned 32 0 } } { arg_decls } { scope { decls { alloc \
32 \"own\" 64 } } { inits } { stmts { return } } } } } }";

fn word<'a>(words: &mut SplitWhitespace<'a>) -> &'a str {
    words.next().unwrap_or("")
}

fn number(words: &mut SplitWhitespace) -> u32 {
    word(words).parse::<u32>().unwrap_or(0)
}

fn bits(words: &mut SplitWhitespace) -> u64 {
    word(words).parse::<u64>().unwrap_or(0)
}

// The lowest bits of a word.
fn cut(size: u32, bits: u64) -> u64
    requires { size ≤ 64 }
    ensures { result < 2 ^ size }
{
    if size >= 64 {
        bits
    } else {
        bits % (1u64 << size)
    }
}

fn value(words: &mut SplitWhitespace) -> Value {
    if word(words) == "ptr" {
        Value::Ptr {
            frame: number(words),
            offset: number(words),
        }
    } else {
        Value::Int {
            size: number(words),
            bits: bits(words),
        }
    }
}

// Stores a value whose size is that of a cell.
fn stored(frames: &mut Frames, at: Value, value: Value) -> &'static str
    ensures { length frames.new.running ≡ length frames.old.running }
{
    let value = match value {
        Value::Int { size, bits } => {
            if size < 8 || size > 64 || size % 8 != 0 {
                return "no cell";
            }
            Value::Int {
                size,
                bits: cut(size, bits),
            }
        }
        Value::Ptr { .. } => value,
    };
    match frames.store(at, value) {
        Ok(()) => "ok",
        Err(ValueFault::Run(fault)) => fault_word(fault),
        Err(ValueFault::Memory) => "memory",
    }
}

// What a load gives, of a cell.
fn loaded(alloc: Global, frames: &Frames, at: Value, size: u32) -> Result<String, AllocError> {
    if size < 8 || size > 64 || size % 8 != 0 {
        return String::from_str(alloc, "no cell");
    }
    match frames.load(at, size) {
        Ok(Value::Int { size, bits }) => format!(in alloc; "word {size} {bits}"),
        Ok(Value::Ptr { frame, offset }) => format!(in alloc; "ptr {frame} {offset}"),
        Err(fault) => String::from_str(alloc, fault_word(fault)),
    }
}

// Enters a function that is there.
fn entered(frames: &mut Frames, count: u32, func: u32) -> &'static str
    requires { count ≡ length frames.old.running }
    ensures { length frames.new.running ≡ length frames.old.running }
{
    if func >= count {
        return "no function";
    }
    match frames.enter(func) {
        Ok(()) => "entered",
        Err(_) => "memory",
    }
}

// Leaves a function that is there.
fn left(frames: &mut Frames, count: u32, func: u32) -> &'static str
    requires { count ≡ length frames.old.running }
    ensures { length frames.new.running ≡ length frames.old.running }
{
    if func >= count {
        return "no function";
    }
    frames.leave(func);
    "left"
}

// What a step gives.
fn step(alloc: Global, frames: &mut Frames, count: u32, line: &str) -> Result<String, AllocError>
    requires { count ≡ length frames.old.running }
    ensures { length frames.new.running ≡ length frames.old.running }
{
    let mut words = line.split_whitespace();
    let kind = word(&mut words);
    if kind == "enter" {
        return String::from_str(alloc, entered(frames, count, number(&mut words)));
    }
    if kind == "leave" {
        return String::from_str(alloc, left(frames, count, number(&mut words)));
    }
    let at = value(&mut words);
    if kind == "store" {
        return String::from_str(alloc, stored(frames, at, value(&mut words)));
    }
    loaded(alloc, frames, at, number(&mut words))
}

// What the steps of a script give, on frames in which nothing was stored.
fn told(alloc: Global, checked: &Checked, script: &str) -> Result<String, AllocError> {
    let mut frames = Frames::new(alloc, checked)?;
    let count = checked.func_count();
    let mut told = String::new(alloc);
    for line in script.split("; ") {
        if !told.is_empty() {
            told.push_str("; ")?;
        }
        told.push_str(step(alloc, &mut frames, count, line)?.as_str())?;
    }
    Ok(told)
}

// What is so, a script, and what its steps give; between two of these a line is free.
static CASES: &str = "\
a word is not wholly stored
store ptr 1 0 word 8 5; load ptr 1 0 32
ok; uninit

a byte of a pointer
store ptr 1 0 ptr 1 0; load ptr 1 0 8
ok; mixed

a pointer is loaded
store ptr 0 4 ptr 2 7; load ptr 0 4 32
ok; ptr 2 7

half of a pointer, and more than one
store ptr 0 4 ptr 2 7; store ptr 0 8 word 32 1; load ptr 0 4 16; load ptr 0 4 64; load ptr 0 6 32
ok; ok; mixed; mixed; mixed

a pointer that a byte was stored in
store ptr 0 4 ptr 2 7; store ptr 0 7 word 8 0; load ptr 0 4 32; load ptr 0 7 8
ok; ok; mixed; word 8 0

a pointer that each byte was stored in
store ptr 0 4 ptr 2 7; store ptr 0 4 word 8 1; store ptr 0 5 word 8 2; store ptr 0 6 word 16 772; load ptr 0 4 32
ok; ok; ok; ok; word 32 50594305

a pointer in the place of a pointer
store ptr 0 4 ptr 2 7; store ptr 0 4 ptr 3 1; load ptr 0 4 32
ok; ok; ptr 3 1

a pointer over half of one
store ptr 0 4 ptr 2 7; store ptr 0 6 ptr 2 7; load ptr 0 4 32; load ptr 0 6 32; load ptr 0 8 32
ok; ok; mixed; ptr 2 7; uninit

the same pointer twice, side by side
store ptr 0 4 ptr 2 7; store ptr 0 8 ptr 2 7; load ptr 0 6 32; load ptr 0 4 32; load ptr 0 8 32
ok; ok; mixed; ptr 2 7; ptr 2 7

words of two sizes
store ptr 0 0 word 64 578437695752307201; load ptr 0 2 32; store ptr 0 3 word 16 65535; load ptr 0 0 64
ok; word 32 100992003; ok; word 64 578438773705212417

a frame that is entered twice
enter 0; store ptr 2 0 word 32 9; load ptr 2 0 32; enter 0; load ptr 2 0 32; store ptr 2 0 word 8 1; load ptr 2 0 8
entered; ok; word 32 9; entered; uninit; ok; word 8 1

a frame that is left
enter 0; store ptr 2 0 word 32 9; leave 0; load ptr 2 0 32; store ptr 2 0 word 32 9; enter 0; load ptr 2 0 32
entered; ok; left; dead; dead; entered; uninit

a function that another calls
enter 0; store ptr 2 0 word 32 9; load ptr 3 0 32; enter 1; load ptr 3 0 32; store ptr 3 0 ptr 2 0; leave 1; \
  load ptr 2 0 32; load ptr 3 0 32
entered; ok; dead; entered; uninit; ok; left; word 32 9; dead

a function that is left twice
enter 0; leave 0; leave 0; load ptr 2 0 8; enter 0; load ptr 2 0 8
entered; left; left; dead; entered; uninit

global frames stay
store ptr 1 0 word 32 9; enter 0; load ptr 1 0 32; leave 0; load ptr 1 0 32
ok; entered; word 32 9; left; word 32 9

no pointer
load word 32 0 32; store word 32 0 word 8 1; load word 8 99 64
kind; kind; kind

dead before bounds
load ptr 2 8 8; store ptr 2 8 word 8 1; load ptr 2 4294967295 64; enter 0; load ptr 2 8 8; store ptr 2 8 word 8 1
dead; dead; dead; entered; bounds; bounds

no frame
load ptr 4 0 8; store ptr 4 0 word 8 1; load ptr 4294967295 0 8
dead; dead; dead

bounds before uninit
load ptr 1 1 32; load ptr 1 4 8; load ptr 1 3 8; load ptr 1 4294967295 8; load ptr 1 0 64
bounds; bounds; uninit; bounds; bounds

bounds before mixed
store ptr 1 0 ptr 1 0; load ptr 1 0 40; load ptr 1 0 24
ok; bounds; mixed

uninit before mixed
store ptr 0 0 ptr 1 0; load ptr 0 0 40; load ptr 0 2 32; load ptr 0 0 24
ok; uninit; uninit; mixed

a store that is refused
store ptr 1 0 word 32 7; store ptr 1 1 word 32 9; store word 32 0 word 32 9; store ptr 2 0 word 32 9; \
  load ptr 1 0 32
ok; bounds; kind; dead; word 32 7

the last byte of a frame
store ptr 0 31 word 8 255; load ptr 0 31 8; store ptr 0 24 word 64 18446744073709551615; load ptr 0 24 64; \
  store ptr 0 25 word 64 1
ok; word 8 255; ok; word 64 18446744073709551615; bounds

the least and the greatest word of each size
store ptr 0 0 word 24 16777215; load ptr 0 0 24; store ptr 0 0 word 40 0; load ptr 0 0 40; load ptr 0 0 24
ok; word 24 16777215; ok; word 40 0; word 24 0";

#[test]
fn steps_give_what_the_history_gives(rt: HostRuntime) -> Result<(), Fail> {
    let alloc = rt.alloc();
    let checked = checked_text(alloc, TEXT)?;
    assert_eq!(rt; CASES.split("\n\n").count(), 24);
    for case in CASES.split("\n\n") {
        let mut lines = case.split('\n');
        let (name, script) = (lines.next().unwrap_or(""), lines.next().unwrap_or(""));
        let answers = lines.next().unwrap_or("");
        assert_eq!(rt; told(alloc, &checked, script)?.as_str(), answers, "{name}");
    }
    Ok(())
}
