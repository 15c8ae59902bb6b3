//! Canonical texts, written by hand from the rules.

use alf_text::{print, read};
use std::alloc::Global;
use std::process::Abort;
use std::test::Fail;

/// The program of the text, printed.
fn reprinted(rt: &impl Abort, alloc: Global, text: &[u8]) -> Result<Vec<u8>, Fail> {
    match read(alloc, text) {
        Ok(program) => Ok(print(alloc, &program)?),
        Err(fault) => panic!(rt; "{fault:?}"),
    }
}

const LEAST: &str =
    "{ alf { macro_defs } { least_addr_unit 8 } little_endian { exports { frefs } { lrefs } } { imports { frefs } { lrefs } } { decls } { inits } { funcs } }\n";

const TWO_RETURNS: &str =
    "{ alf { macro_defs } { least_addr_unit 8 } little_endian { exports { frefs } { lrefs } } { imports { frefs } { lrefs } } { decls } { inits } { funcs
{ func { label 32 { lref 32 \"main\" } { dec_unsigned 32 0 } } { arg_decls } { scope { decls } { inits } { stmts
{ return { dec_signed 32 7 } }
{ return { dec_signed 32 0 } } } } } } }
";

const EACH_PART: &str =
    "{ alf { macro_defs } { least_addr_unit 8 } little_endian { exports { frefs { fref 32 \"x\" } { fref 32 \"y z\" } } { lrefs { lref 32 \"main\" } } } { imports { frefs } { lrefs } } { decls
{ alloc 32 \"x\" 32 }
{ alloc 32 \"y z\" 64 } } { inits
{ init { ref \"x\" { dec_unsigned 32 0 } } { dec_signed 32 { minus 2147483648 } } }
{ init { ref \"y z\" { dec_unsigned 32 4 } } { dec_unsigned 32 4294967295 } } } { funcs
{ func { label 32 { lref 32 \"main\" } { dec_unsigned 32 0 } } { arg_decls
{ alloc 32 \"a\" 8 } } { scope { decls
{ alloc 32 \"b\" 16 } } { inits
{ init { ref \"b\" { dec_unsigned 32 0 } } { dec_unsigned 16 65535 } } } { stmts
{ null }
{ label 32 { lref 32 \"again\" } { dec_unsigned 32 0 } }
{ store { addr 32 { fref 32 \"x\" } { dec_unsigned 32 2 } } with { add 32 { load 32 { addr 32 { fref 32 \"x\" } { dec_unsigned 32 0 } } } { dec_signed 32 { minus 1 } } { dec_unsigned 1 0 } } }
{ store { addr 32 { fref 32 \"b\" } { dec_unsigned 32 0 } } with { select 32 0 15 { u_mul 16 16 { dec_unsigned 16 3 } { dec_signed 16 32767 } } } }
{ call { label 32 { lref 32 \"f\" } { dec_unsigned 32 0 } } { dec_unsigned 8 255 } { dec_signed 64 { minus 9223372036854775808 } } result { addr 32 { fref 32 \"x\" } { dec_unsigned 32 0 } } }
{ call { label 32 { lref 32 \"g\" } { dec_unsigned 32 0 } } result }
{ switch { load 8 { addr 32 { fref 32 \"a\" } { dec_unsigned 32 0 } } } { target { dec_unsigned 8 0 } { label 32 { lref 32 \"again\" } { dec_unsigned 32 0 } } } { target { dec_signed 8 { minus 128 } } { label 32 { lref 32 \"end\" } { dec_unsigned 32 0 } } } { default { label 32 { lref 32 \"end\" } { dec_unsigned 32 0 } } } }
{ switch { dec_unsigned 64 18446744073709551615 } { default { label 32 { lref 32 \"again\" } { dec_unsigned 32 0 } } } }
{ jump { label 32 { lref 32 \"again\" } { dec_unsigned 32 0 } } leaving 0 }
{ label 32 { lref 32 \"end\" } { dec_unsigned 32 0 } }
{ return } } } }
{ func { label 32 { lref 32 \"g\" } { dec_unsigned 32 0 } } { arg_decls } { scope { decls } { inits } { stmts
{ return } } } } } }
";

#[test]
fn a_canonical_text_is_printed_as_it_stands(rt: HostRuntime) -> Result<(), Fail> {
    for text in [LEAST, TWO_RETURNS, EACH_PART] {
        let again = reprinted(&rt, rt.alloc(), text.as_bytes())?;
        assert_eq!(rt; again.as_slice(), text.as_bytes());
    }
    Ok(())
}

/// A text that is not canonical, with the numbers that have another canonical form than they are written in.
const LOOSE: &str =
    "{alf{macro_defs}{least_addr_unit 08}little_endian{exports{frefs}{lrefs}}{imports{frefs}{lrefs}}{decls}{inits}
/* one function */ {funcs {func
 {label 032{lref 32\"main\"}{dec_unsigned 32 00000000000000000000}}\t{arg_decls}{scope{decls}{inits}{stmts
 {return{dec_signed 32{minus 0}}}
 {return{dec_signed 8{minus 00128}}}}}}}}";

const LOOSE_AGAIN: &str =
    "{ alf { macro_defs } { least_addr_unit 8 } little_endian { exports { frefs } { lrefs } } { imports { frefs } { lrefs } } { decls } { inits } { funcs
{ func { label 32 { lref 32 \"main\" } { dec_unsigned 32 0 } } { arg_decls } { scope { decls } { inits } { stmts
{ return { dec_signed 32 0 } }
{ return { dec_signed 8 { minus 128 } } } } } } } }
";

#[test]
fn a_text_is_printed_in_its_canonical_form(rt: HostRuntime) -> Result<(), Fail> {
    let again = reprinted(&rt, rt.alloc(), LOOSE.as_bytes())?;
    assert_eq!(rt; again.as_slice(), LOOSE_AGAIN.as_bytes());
    Ok(())
}
