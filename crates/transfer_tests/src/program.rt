//! The program of the tests.

use alf_check::{Checked, check};
use alf_text::read;
use std::alloc::{AllocError, Global};
use std::test::Fail;

// Frame 0 is global and has 128 bits, as the worked rows want it. Frame 1 is global and has 80 bytes, which lie on two
// pages, and a word of 32 bits at offset 8 at first. Frame 2 is of `main` and has 64 bits. Frames 3 and 4 are of
// `leaf`: its argument of 32 bits, and 64 bits which begin with a word of 16 bits.
const TEXT: &str = "\
{ alf { macro_defs } { least_addr_unit 8 } little_endian { exports { frefs } { lrefs } } { imports { frefs } { \
lrefs } } { decls { alloc 32 \"row\" 128 } { alloc 32 \"wide\" 640 } } { inits { init { ref \"wide\" { dec_unsigned \
32 8 } } { dec_unsigned 32 258 } } } { funcs { func { label 32 { lref 32 \"main\" } { dec_unsigned 32 0 } } { \
arg_decls } { scope { decls { alloc 32 \"own\" 64 } } { inits } { stmts { store { addr 32 { fref 32 \"own\" } { \
dec_unsigned 32 0 } } with { load 32 { addr 32 { fref 32 \"wide\" } { dec_unsigned 32 8 } } } } { store { addr 32 { \
fref 32 \"own\" } { dec_unsigned 32 4 } } with { addr 32 { fref 32 \"row\" } { dec_unsigned 32 4 } } } { return { \
add 32 { load 32 { addr 32 { fref 32 \"own\" } { dec_unsigned 32 0 } } } { dec_unsigned 32 5 } { dec_unsigned 1 0 } \
} } } } } { func { label 32 { lref 32 \"leaf\" } { dec_unsigned 32 0 } } { arg_decls { alloc 32 \"a\" 32 } } { \
scope { decls { alloc 32 \"kept\" 64 } } { inits { init { ref \"kept\" { dec_unsigned 32 0 } } { dec_unsigned 16 7 \
} } } { stmts { store { load 32 { addr 32 { fref 32 \"a\" } { dec_unsigned 32 0 } } } with { load 16 { addr 32 { \
fref 32 \"kept\" } { dec_unsigned 32 0 } } } } { return { load 64 { addr 32 { fref 32 \"kept\" } { dec_unsigned 32 \
0 } } } } } } } } }";

/// The program of the text, checked.
pub(crate) fn checked_text(alloc: Global) -> Result<Checked, Fail> {
    match read(alloc, TEXT.as_bytes()) {
        Ok(program) => match check(alloc, program, "main") {
            Ok(checked) => Ok(checked),
            Err(_) => Err(Fail::from(AllocError)),
        },
        Err(_) => Err(Fail::from(AllocError)),
    }
}
