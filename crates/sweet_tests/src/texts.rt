//! Texts that are read, and texts that depart from the grammar: `print` prints the first, and each
//! command tells the second.

use crate::tables::hold;
use std::test::Fail;

// Items of a function: those that are read, of which what is printed is printed again as it is, and those that
// depart, with the place where they do.
const ITEMS: &str = r#"!then print b.alf > b.alf
print a.alf
a.alf raw { alf { macro_defs } { least_addr_unit 8 } little_endian { exports { frefs } { lrefs } } { imports { frefs } { lrefs } } { decls } { inits } { funcs { func { label 32 { lref 32 "main" } { dec_unsigned 32 0 } } { arg_decls } { scope { decls } { inits } { stmts $0 } } } } }
=> same 0 { alf..

{ null } { return }
{ label 32 { lref 32 "A" } { dec_unsigned 32 0 } } { return }
{ jump { label 32 { lref 32 "A" } { dec_unsigned 32 0 } } leaving 0 }
{ jump { label 32 { lref 32 "A" } { dec_unsigned 32 0 } } leaving 00 }
{ label 032 { lref 0032 "A" } { dec_unsigned 32 00 } } { return }
{ label 00000000000000000032 { lref 32 "A" } { dec_unsigned 32 0 } } { return }
{ label 32 { lref 32 "A~ !#[]" } { dec_unsigned 32 0 } } { return }
{ return { dec_unsigned 32 1 } }
{ return { addr 32 { fref 32 "x" } { dec_unsigned 32 0 } } }
{ return { load 32 { addr 32 { fref 32 "x" } { dec_unsigned 32 0 } } } }
{ return { dec_unsigned 1 1 } }
{ return { dec_unsigned 8 255 } }
{ return { dec_unsigned 32 4294967295 } }
{ return { dec_unsigned 63 9223372036854775807 } }
{ return { dec_unsigned 64 18446744073709551615 } }
{ return { dec_signed 8 127 } }
{ return { dec_signed 1 0 } }
{ return { dec_signed 8 { minus 128 } } }
{ return { dec_signed 1 { minus 1 } } }
{ return { dec_signed 8 { minus 0 } } }
{ return { dec_signed 64 9223372036854775807 } }
{ return { dec_signed 64 { minus 9223372036854775808 } } }
{ return { addr 32 { fref 32 "x" } { dec_unsigned 32 4294967295 } } }
{ return { load 8 { addr 32 { fref 32 "x" } { dec_unsigned 32 0 } } } }
{ return { load 64 { addr 32 { fref 32 "x" } { dec_unsigned 32 0 } } } }
{ return { neg 8 { dec_unsigned 32 1 } } }
{ return { add 8 { dec_unsigned 32 1 } { dec_unsigned 32 2 } { dec_unsigned 32 3 } } }
{ return { select 32 0 63 { dec_unsigned 32 1 } } }
{ return { select 32 63 0 { dec_unsigned 32 1 } } }
{ return { if 8 { dec_unsigned 32 1 } { dec_unsigned 32 2 } { dec_unsigned 32 3 } } }
{ store { addr 32 { fref 32 "x" } { dec_unsigned 32 0 } } with { dec_unsigned 32 1 } } { return }
{ store { dec_unsigned 32 1 } with { addr 32 { fref 32 "x" } { dec_unsigned 32 0 } } } { return }
{ switch { load 32 { addr 32 { fref 32 "x" } { dec_unsigned 32 0 } } } { default { label 32 { lref 32 "A" } { dec_unsigned 32 0 } } } }
{ switch { dec_unsigned 32 1 } { target { dec_unsigned 32 1 } { label 32 { lref 32 "A" } { dec_unsigned 32 0 } } } { target { dec_unsigned 32 1 } { label 32 { lref 32 "B" } { dec_unsigned 32 0 } } } { default { label 32 { lref 32 "A" } { dec_unsigned 32 0 } } } }
{ call { label 32 { lref 32 "f" } { dec_unsigned 32 0 } } result } { return }
{ call { label 32 { lref 32 "f" } { dec_unsigned 32 0 } } { dec_unsigned 32 1 } { load 32 { addr 32 { fref 32 "x" } { dec_unsigned 32 0 } } } result { addr 32 { fref 32 "x" } { dec_unsigned 32 0 } } } { return }
{ return } { null } { return }
{ return /**/ }
{ return /* } */ } /***/
{return}
{return}{return{dec_unsigned 32 1}}
{call { label 32 { lref 32 "f" } { dec_unsigned 32 0 } } result}{return}


print a.alf
a.alf raw { alf { macro_defs } { least_addr_unit 8 } little_endian { exports { frefs } { lrefs } } { imports { frefs } { lrefs } } { decls } { inits } { funcs { func { label 32 { lref 32 "main" } { dec_unsigned 32 0 } } { arg_decls } { scope { decls } { inits } { stmts $0 } } } } }
--
analyse a.alf
a.alf raw { alf { macro_defs } { least_addr_unit 8 } little_endian { exports { frefs } { lrefs } } { imports { frefs } { lrefs } } { decls } { inits } { funcs { func { label 32 { lref 32 "main" } { dec_unsigned 32 0 } } { arg_decls } { scope { decls } { inits } { stmts $0 } } } } }
--
run a.alf
a.alf raw { alf { macro_defs } { least_addr_unit 8 } little_endian { exports { frefs } { lrefs } } { imports { frefs } { lrefs } } { decls } { inits } { funcs { func { label 32 { lref 32 "main" } { dec_unsigned 32 0 } } { arg_decls } { scope { decls } { inits } { stmts $0 } } } } }

{ null 1 } { return } => 2 fault 10 syntax 1 268;
{ Null } { return } => 2 fault 12 profile 1 263 "Null";
{ label 32 { lref 32 "A" } { dec_unsigned 32 0 } } => 2 fault 10 syntax 1 312;
{ null } => 2 fault 10 syntax 1 270;
{ store { addr 32 { fref 32 "x" } { dec_unsigned 32 0 } } with { dec_unsigned 32 1 } } => 2 fault 10 syntax 1 348;
{ call { label 32 { lref 32 "f" } { dec_unsigned 32 0 } } result } => 2 fault 10 syntax 1 328;
 => 2 fault 10 syntax 1 262;
{ jump { label 32 { lref 32 "A" } { dec_unsigned 32 0 } } leaving 1 } => 2 fault 12 profile 1 327 "1";
{ jump { label 32 { lref 32 "A" } { dec_unsigned 32 0 } } entering 0 } => 2 fault 12 profile 1 319 "entering";
{ jump { label 32 { lref 32 "A" } { dec_unsigned 32 0 } } 0 } => 2 fault 10 syntax 1 319;
{ jump A leaving 0 } => 2 fault 10 syntax 1 268;
{ label 32 { lref 32 "A" } { dec_unsigned 32 1 } } { return } => 2 fault 12 profile 1 306 "1";
{ label 32 { lref 32 "A" } { dec_signed 32 0 } } { return } => 2 fault 12 profile 1 290 "dec_signed";
{ label 64 { lref 32 "A" } { dec_unsigned 32 0 } } { return } => 2 fault 12 profile 1 269 "64";
{ label 32x { lref 32 "A" } { dec_unsigned 32 0 } } { return } => 2 fault 10 syntax 1 271;
{ label 33 x { lref 32 "A" } { dec_unsigned 32 0 } } { return } => 2 fault 12 profile 1 269 "33";
{ label 000000000000000000032 { lref 32 "A" } { dec_unsigned 32 0 } } { return } => 2 fault 11 number 1 269;
{ label 32 { lref 32 "" } { dec_unsigned 32 0 } } { return } => 2 fault 10 syntax 1 282;
{ label 32 { lref 32 "A } { dec_unsigned 32 0 } } { return } => 2 fault 10 syntax 1 282;
{ label 32 { lref 32 "A\" } { dec_unsigned 32 0 } } { return } => 2 fault 10 syntax 1 282;
{ label 32 { lref 32 A } { dec_unsigned 32 0 } } { return } => 2 fault 10 syntax 1 282;
{ label 32 { lref 32 7 } { dec_unsigned 32 0 } } { return } => 2 fault 10 syntax 1 282;
{ return { dec_unsigned 32 1 } { dec_unsigned 32 2 } } => 2 fault 10 syntax 1 292;
{ return 1 } => 2 fault 10 syntax 1 270;
{ return word } => 2 fault 10 syntax 1 270;
{ return { dec_unsigned 0 0 } } => 2 fault 12 profile 1 285 "0";
{ return { dec_unsigned 65 0 } } => 2 fault 12 profile 1 285 "65";
{ return { dec_unsigned 1 2 } } => 2 fault 11 number 1 287;
{ return { dec_unsigned 8 256 } } => 2 fault 11 number 1 287;
{ return { dec_unsigned 32 4294967296 } } => 2 fault 11 number 1 288;
{ return { dec_unsigned 32 000000000000000000001 } } => 2 fault 11 number 1 288;
{ store { addr 32 { fref 32 "x" } { dec_unsigned 32 0 } } with { add 32 { load 32 { addr 32 { fref 32 "x" } { dec_unsigned 32 0 } } } { dec_unsigned 32 4294967296 } { dec_unsigned 1 0 } } } { return } => 2 fault 11 number 1 413;
{ switch { load 32 { addr 32 { fref 32 "x" } { dec_unsigned 32 0 } } } { target { dec_unsigned 32 4294967296 } { label 32 { lref 32 "A" } { dec_unsigned 32 0 } } } { default { label 32 { lref 32 "A" } { dec_unsigned 32 0 } } } } { label 32 { lref 32 "A" } { dec_unsigned 32 0 } } { return } => 2 fault 11 number 1 359;
{ return { dec_unsigned 63 9223372036854775808 } } => 2 fault 11 number 1 288;
{ return { dec_unsigned 64 18446744073709551616 } } => 2 fault 11 number 1 288;
{ return { dec_unsigned 64 99999999999999999999 } } => 2 fault 11 number 1 288;
{ return { dec_unsigned 64 000000000000000000001 } } => 2 fault 11 number 1 288;
{ return { dec_unsigned 8 { minus 1 } } } => 2 fault 10 syntax 1 287;
{ return { dec_signed 8 128 } } => 2 fault 11 number 1 285;
{ return { dec_signed 1 1 } } => 2 fault 11 number 1 285;
{ return { dec_signed 8 { minus 129 } } } => 2 fault 11 number 1 293;
{ return { dec_signed 1 { minus 2 } } } => 2 fault 11 number 1 293;
{ return { dec_signed 64 9223372036854775808 } } => 2 fault 11 number 1 286;
{ return { dec_signed 64 { minus 9223372036854775809 } } } => 2 fault 11 number 1 294;
{ return { dec_signed 8 { plus 1 } } } => 2 fault 12 profile 1 287 "plus";
{ return { dec_signed 8 minus 1 } } => 2 fault 10 syntax 1 285;
{ return { dec_signed 8 { minus word } } } => 2 fault 10 syntax 1 293;
{ return { dec_float 8 1 } } => 2 fault 12 profile 1 272 "dec_float";
{ return { addr 32 { fref 32 "x" } { dec_unsigned 32 4294967296 } } } => 2 fault 11 number 1 314;
{ return { addr 64 { fref 32 "x" } { dec_unsigned 32 0 } } } => 2 fault 12 profile 1 277 "64";
{ return { addr 32 { lref 32 "x" } { dec_unsigned 32 0 } } } => 2 fault 12 profile 1 282 "lref";
{ return { load 12 { addr 32 { fref 32 "x" } { dec_unsigned 32 0 } } } } => 2 fault 12 profile 1 277 "12";
{ return { load 0 { addr 32 { fref 32 "x" } { dec_unsigned 32 0 } } } } => 2 fault 12 profile 1 277 "0";
{ return { load 72 { addr 32 { fref 32 "x" } { dec_unsigned 32 0 } } } } => 2 fault 12 profile 1 277 "72";
{ return { load 32 } } => 2 fault 10 syntax 1 280;
{ return { load { addr 32 { fref 32 "x" } { dec_unsigned 32 0 } } } } => 2 fault 10 syntax 1 277;
{ return { add 8 { dec_unsigned 32 1 } { dec_unsigned 32 2 } } } => 2 fault 10 syntax 1 322;
{ return { add 8 { dec_unsigned 32 1 } { dec_unsigned 32 2 } { dec_unsigned 32 3 } { dec_unsigned 32 4 } } } => 2 fault 10 syntax 1 344;
{ return { add 8 8 { dec_unsigned 32 1 } { dec_unsigned 32 2 } { dec_unsigned 32 3 } } } => 2 fault 10 syntax 1 278;
{ return { add { dec_unsigned 32 1 } { dec_unsigned 32 2 } { dec_unsigned 32 3 } } } => 2 fault 10 syntax 1 276;
{ return { mul 8 { dec_unsigned 32 1 } { dec_unsigned 32 2 } } } => 2 fault 12 profile 1 272 "mul";
{ return { s_div 8 65 { dec_unsigned 32 1 } { dec_unsigned 32 2 } } } => 2 fault 12 profile 1 280 "65";
{ return { s_div 8 { dec_unsigned 32 1 } { dec_unsigned 32 2 } } } => 2 fault 10 syntax 1 280;
{ return { select 0 0 7 { dec_unsigned 32 1 } } } => 2 fault 12 profile 1 279 "0";
{ return { select 32 64 7 { dec_unsigned 32 1 } } } => 2 fault 12 profile 1 282 "64";
{ return { select 32 0 64 { dec_unsigned 32 1 } } } => 2 fault 12 profile 1 284 "64";
{ return { select 32 0 { dec_unsigned 32 1 } } } => 2 fault 10 syntax 1 284;
{ return { trunc 32 0 { dec_unsigned 32 1 } } } => 2 fault 12 profile 1 281 "0";
{ return { label 32 } } => 2 fault 12 profile 1 272 "label";
{ return { return } } => 2 fault 12 profile 1 272 "return";
{ store { addr 32 { fref 32 "x" } { dec_unsigned 32 0 } } { dec_unsigned 32 1 } } { return } => 2 fault 10 syntax 1 319;
{ store { addr 32 { fref 32 "x" } { dec_unsigned 32 0 } } to { dec_unsigned 32 1 } } { return } => 2 fault 12 profile 1 319 "to";
{ store with { dec_unsigned 32 1 } } { return } => 2 fault 10 syntax 1 269;
{ store { addr 32 { fref 32 "x" } { dec_unsigned 32 0 } } with } { return } => 2 fault 10 syntax 1 324;
{ switch { load 32 { addr 32 { fref 32 "x" } { dec_unsigned 32 0 } } } } => 2 fault 10 syntax 1 332;
{ switch { load 32 { addr 32 { fref 32 "x" } { dec_unsigned 32 0 } } } { target { dec_unsigned 32 1 } { label 32 { lref 32 "A" } { dec_unsigned 32 0 } } } } => 2 fault 10 syntax 1 416;
{ switch { load 32 { addr 32 { fref 32 "x" } { dec_unsigned 32 0 } } } { default { label 32 { lref 32 "A" } { dec_unsigned 32 0 } } } { target { dec_unsigned 32 1 } { label 32 { lref 32 "A" } { dec_unsigned 32 0 } } } } => 2 fault 10 syntax 1 395;
{ switch { load 32 { addr 32 { fref 32 "x" } { dec_unsigned 32 0 } } } { other { label 32 { lref 32 "A" } { dec_unsigned 32 0 } } } } => 2 fault 12 profile 1 334 "other";
{ switch { default { label 32 { lref 32 "A" } { dec_unsigned 32 0 } } } } => 2 fault 12 profile 1 272 "default";
{ switch { load 32 { addr 32 { fref 32 "x" } { dec_unsigned 32 0 } } } { target { label 32 } { label 32 { lref 32 "A" } { dec_unsigned 32 0 } } } { default { label 32 { lref 32 "A" } { dec_unsigned 32 0 } } } } => 2 fault 12 profile 1 343 "label";
{ switch { load 32 { addr 32 { fref 32 "x" } { dec_unsigned 32 0 } } } { target { load 32 } { label 32 { lref 32 "A" } { dec_unsigned 32 0 } } } { default { label 32 { lref 32 "A" } { dec_unsigned 32 0 } } } } => 2 fault 12 profile 1 343 "load";
{ switch { load 32 { addr 32 { fref 32 "x" } { dec_unsigned 32 0 } } } { target 1 { label 32 { lref 32 "A" } { dec_unsigned 32 0 } } } { default { label 32 { lref 32 "A" } { dec_unsigned 32 0 } } } } => 2 fault 10 syntax 1 341;
{ call { label 32 { lref 32 "f" } { dec_unsigned 32 0 } } { dec_unsigned 32 1 } { addr 32 { fref 32 "x" } { dec_unsigned 32 0 } } } { return } => 2 fault 10 syntax 1 391;
{ call { label 32 { lref 32 "f" } { dec_unsigned 32 0 } } { dec_unsigned 32 1 } to { addr 32 { fref 32 "x" } { dec_unsigned 32 0 } } } { return } => 2 fault 12 profile 1 341 "to";
{ call { label 32 { lref 32 "f" } { dec_unsigned 32 0 } } 1 result } { return } => 2 fault 10 syntax 1 319;
{ call { label 32 { lref 32 "f" } { dec_unsigned 32 0 } } result { dec_unsigned 32 1 } } { return } => 2 fault 12 profile 1 328 "dec_unsigned";
{ call { label 32 { lref 32 "f" } { dec_unsigned 32 0 } } result { addr 32 { fref 32 "x" } { dec_unsigned 32 0 } } { addr 32 { fref 32 "x" } { dec_unsigned 32 0 } } } { return } => 2 fault 10 syntax 1 376;
{ call f result } { return } => 2 fault 10 syntax 1 268;
{ return } x => 2 fault 10 syntax 1 272;
{ return } 7 => 2 fault 10 syntax 1 272;
{ return } "n" => 2 fault 10 syntax 1 272;
{ return } 000000000000000000000 => 2 fault 11 number 1 272;
000000000000000000000 => 2 fault 11 number 1 261;
{ free } { return } => 2 fault 12 profile 1 263 "free";
{ 1 } { return } => 2 fault 10 syntax 1 263;
{ "n" } { return } => 2 fault 10 syntax 1 263;
{ } { return } => 2 fault 10 syntax 1 263;
{ return /* } } => 2 fault 10 syntax 1 270;
{ return /*/ } => 2 fault 10 syntax 1 270;
{ return // } => 2 fault 10 syntax 1 270;
{ return $ } => 2 fault 10 syntax 1 270;
{ return _word } => 2 fault 10 syntax 1 270;"#;

#[test]
fn items_are_read_or_depart_at_their_place(rt: HostRuntime) -> Result<(), Fail> {
    hold(rt.alloc(), ITEMS)
}

// A frame among the globals, how many there are, and how many functions, which need not differ yet.
const LIMITS: &str = r#"print a.alf
a.alf times 1 { alf { macro_defs } { least_addr_unit 8 } little_endian { exports { frefs } { lrefs } } { imports { frefs } { lrefs } } { decls & $1 $0 & 1 } { inits } { funcs & $2 { func { label 32 { lref 32 "main" } { dec_unsigned 32 0 } } { arg_decls } { scope { decls } { inits } { stmts { return } } } } & 1 } }

{ alloc 32 "x" 8 } | 256 | 1 => 0 { alf..
{ alloc 32 "x" 8 } | 257 | 1 => 2 fault 13 limit frames 257;
 | 0 | 256 => 0 { alf..
 | 0 | 257 => 2 fault 13 limit functions 257;
{ alloc 32 "x" 8 } | 257 | 257 => 2 fault 13 limit frames 257;
{ alloc 32 "x" 524288 } | 1 | 0 => 0 { alf..
{ alloc 32 "x" 524296 } | 1 | 0 => 2 fault 13 limit frame-bytes 65537;
{ alloc 32 "x" 524289 } | 1 | 0 => 2 fault 12 profile 1 ..
{ alloc 32 "x" 0 } | 1 | 0 => 2 fault 12 profile 1 ..
{ alloc 32 "x" 99999999999999999992 } | 1 | 0 => 2 fault 13 limit frame-bytes 65537;
{ alloc 32 "x" 100000000000000000000 } | 1 | 0 => 2 fault 11 number 1 ..
{ alloc 32 "x" 524288 } | 16 | 0 => 0 { alf..
{ alloc 32 "x" 524288 } | 17 | 0 => 2 fault 13 limit all-bytes 1048577;"#;

#[test]
fn a_limit_is_told_where_it_is_passed(rt: HostRuntime) -> Result<(), Fail> {
    hold(rt.alloc(), LIMITS)
}

// What stands before the number that is returned, and how often; and what stands after it, and how often.
const DEPTHS: &str = r#"print a.alf
a.alf times 1 { alf { macro_defs } { least_addr_unit 8 } little_endian { exports { frefs } { lrefs } } { imports { frefs } { lrefs } } { decls } { inits } { funcs { func { label 32 { lref 32 "main" } { dec_unsigned 32 0 } } { arg_decls } { scope { decls } { inits } { stmts { return & $1 $0 & 1 { dec_unsigned 32 0 } & $3 $2 & 1 } } } } } }

{ not 32 | 63 | } | 63 => 0 { alf..
{ not 32 | 64 | } | 64 => 2 fault 13 limit depth 65;
{ load 8 | 63 | } | 63 => 0 { alf..
{ load 8 | 64 | } | 64 => 2 fault 13 limit depth 65;
{ add 8 | 1000 | } | 1000 => 2 fault 13 limit depth 65;
{ | 500000 |  | 0 => 2 fault 10 syntax 1 .."#;

#[test]
fn expressions_stand_in_one_another_up_to_64(rt: HostRuntime) -> Result<(), Fail> {
    hold(rt.alloc(), DEPTHS)
}

// A part of the program that returns at once, and what stands in its place.
const OTHERS: &str = r#"analyse a.alf
a.alf but $0 | $1
--
run a.alf
a.alf but $0 | $1

{ return } |  => 2 fault 10 syntax 1 262;
{ return } | { null } => 2 fault 10 syntax 1 270;
{ return } | { return } /* open => 2 fault 10 syntax 1 272;
 8  |  000000000000000000008  => 2 fault 11 number 1 40;
 8  |  16  => 2 fault 12 profile 1 40 "16";
"main" | "main => 2 fault 10 syntax 1 178;
func  | func2  => 2 fault 12 profile 1 152 "func2";
32 0 | 320 => 2 fault 12 profile 1 202 "320";"#;

#[test]
fn other_texts_depart_where_they_differ(rt: HostRuntime) -> Result<(), Fail> {
    hold(rt.alloc(), OTHERS)
}

// Whole texts, where a semicolon stands for the end of a line.
static DEPARTURES: &str = "\
print a.alf
a.alf text $0
--
analyse a.alf
a.alf text $0
--
run a.alf
a.alf text $0

{ alf => 2 fault 10 syntax 1 6;
 => 2 fault 10 syntax 1 1;
{ elf } => 2 fault 12 profile 1 3 \"elf\";
;;  { elf } => 2 fault 12 profile 3 5 \"elf\";
{ alf\r;\t\t} => 2 fault 10 syntax 2 3;
/* a;b */ /* open => 2 fault 10 syntax 2 6;
{ alf { macro_defs { } } } => 2 fault 12 profile 1 20 \"macro_defs\";
{ alf { macro_defs } { least_addr_unit 8 } little_endian { exports { frefs } { lrefs } } { imports { frefs { fref 32 \"x\" } } { lrefs } } } => 2 fault 12 profile 1 108 \"imports\";
\u{e9} => 2 fault 10 syntax 1 1;";

#[test]
fn whole_texts_depart_where_they_differ(rt: HostRuntime) -> Result<(), Fail> {
    hold(rt.alloc(), DEPARTURES)
}

// Texts below, and their canonical texts.
const PRINTED: &str = r#"print a.alf
a.alf whole $0
=> file a.alf whole $1

tight | canonical
canonical | canonical
operators | operators
returns twice | returns twice"#;

#[test]
fn whole_texts_are_printed_in_their_canonical_form(rt: HostRuntime) -> Result<(), Fail> {
    hold(rt.alloc(), PRINTED)
}

// A text of every kind of item, in little white space, and its canonical text.
const TIGHT: &str = r#"/* every part */{alf{macro_defs}{least_addr_unit 08}little_endian
{exports{frefs{fref 032 "g"}{fref 32 "h"}}{lrefs{lref 32 "main"}}}{imports{frefs}{lrefs}}
{decls{alloc 32 "g" 0032}{alloc 32 "h" 16}}
{inits{init{ref "g" {dec_unsigned 32 00}}{dec_unsigned 32 7}}{init{ref "h" {dec_unsigned 32 1}}{dec_signed 8 {minus 01}}}}
{funcs{func{label 32{lref 32 "main"}{dec_unsigned 32 0}}{arg_decls{alloc 32 "a" 8}{alloc 32 "b" 64}}
{scope{decls{alloc 32 "x" 32}}{inits{init{ref "x" {dec_unsigned 32 0}}{dec_signed 32 {minus 0}}}}{stmts
{label 32{lref 32 "top"}{dec_unsigned 32 0}}{null}
{store{addr 32{fref 32 "x"}{dec_unsigned 32 0}}with{add 32{load 32{addr 32{fref 32 "x"}{dec_unsigned 32 0}}}{dec_signed 32 5}{dec_unsigned 1 0}}}
{call{label 32{lref 32 "f"}{dec_unsigned 32 0}}result}
{call{label 32{lref 32 "f"}{dec_unsigned 32 0}}{dec_unsigned 8 1}{select 32 0 7{dec_unsigned 32 1}}result{addr 32{fref 32 "x"}{dec_unsigned 32 2}}}
{switch{dec_unsigned 8 1}{target{dec_unsigned 8 255}{label 32{lref 32 "top"}{dec_unsigned 32 0}}}{target{dec_signed 8{minus 128}}{label 32{lref 32 "end"}{dec_unsigned 32 0}}}{default{label 32{lref 32 "top"}{dec_unsigned 32 0}}}}
{jump{label 32{lref 32 "end"}{dec_unsigned 32 0}}leaving 00}
{label 32{lref 32 "end"}{dec_unsigned 32 0}}{return{if 8{dec_unsigned 1 1}{dec_unsigned 8 1}{dec_unsigned 8 2}}}}}}
{func{label 32{lref 32 "f"}{dec_unsigned 32 0}}{arg_decls}{scope{decls}{inits}{stmts{return}}}}}}"#;

const CANONICAL: &str =
    r#"{ alf { macro_defs } { least_addr_unit 8 } little_endian { exports { frefs { fref 32 "g" } { fref 32 "h" } } { lrefs { lref 32 "main" } } } { imports { frefs } { lrefs } } { decls
{ alloc 32 "g" 32 }
{ alloc 32 "h" 16 } } { inits
{ init { ref "g" { dec_unsigned 32 0 } } { dec_unsigned 32 7 } }
{ init { ref "h" { dec_unsigned 32 1 } } { dec_signed 8 { minus 1 } } } } { funcs
{ func { label 32 { lref 32 "main" } { dec_unsigned 32 0 } } { arg_decls
{ alloc 32 "a" 8 }
{ alloc 32 "b" 64 } } { scope { decls
{ alloc 32 "x" 32 } } { inits
{ init { ref "x" { dec_unsigned 32 0 } } { dec_signed 32 0 } } } { stmts
{ label 32 { lref 32 "top" } { dec_unsigned 32 0 } }
{ null }
{ store { addr 32 { fref 32 "x" } { dec_unsigned 32 0 } } with { add 32 { load 32 { addr 32 { fref 32 "x" } { dec_unsigned 32 0 } } } { dec_signed 32 5 } { dec_unsigned 1 0 } } }
{ call { label 32 { lref 32 "f" } { dec_unsigned 32 0 } } result }
{ call { label 32 { lref 32 "f" } { dec_unsigned 32 0 } } { dec_unsigned 8 1 } { select 32 0 7 { dec_unsigned 32 1 } } result { addr 32 { fref 32 "x" } { dec_unsigned 32 2 } } }
{ switch { dec_unsigned 8 1 } { target { dec_unsigned 8 255 } { label 32 { lref 32 "top" } { dec_unsigned 32 0 } } } { target { dec_signed 8 { minus 128 } } { label 32 { lref 32 "end" } { dec_unsigned 32 0 } } } { default { label 32 { lref 32 "top" } { dec_unsigned 32 0 } } } }
{ jump { label 32 { lref 32 "end" } { dec_unsigned 32 0 } } leaving 0 }
{ label 32 { lref 32 "end" } { dec_unsigned 32 0 } }
{ return { if 8 { dec_unsigned 1 1 } { dec_unsigned 8 1 } { dec_unsigned 8 2 } } } } } }
{ func { label 32 { lref 32 "f" } { dec_unsigned 32 0 } } { arg_decls } { scope { decls } { inits } { stmts
{ return } } } } } }
"#;

// A canonical text with each operator, and one that returns twice.
const OPERATORS: &str =
    r#"{ alf { macro_defs } { least_addr_unit 8 } little_endian { exports { frefs } { lrefs } } { imports { frefs } { lrefs } } { decls } { inits } { funcs
{ func { label 32 { lref 32 "main" } { dec_unsigned 32 0 } } { arg_decls } { scope { decls } { inits } { stmts
{ return { neg 32 { dec_unsigned 32 0 } } }
{ return { not 32 { dec_unsigned 32 0 } } }
{ return { add 32 { dec_unsigned 32 0 } { dec_unsigned 32 1 } { dec_unsigned 32 2 } } }
{ return { sub 32 { dec_unsigned 32 0 } { dec_unsigned 32 1 } { dec_unsigned 32 2 } } }
{ return { c_add 32 { dec_unsigned 32 0 } { dec_unsigned 32 1 } { dec_unsigned 32 2 } } }
{ return { c_sub 32 { dec_unsigned 32 0 } { dec_unsigned 32 1 } { dec_unsigned 32 2 } } }
{ return { u_mul 32 16 { dec_unsigned 32 0 } { dec_unsigned 32 1 } } }
{ return { s_mul 32 16 { dec_unsigned 32 0 } { dec_unsigned 32 1 } } }
{ return { u_div 32 16 { dec_unsigned 32 0 } { dec_unsigned 32 1 } } }
{ return { s_div 32 16 { dec_unsigned 32 0 } { dec_unsigned 32 1 } } }
{ return { u_mod 32 16 { dec_unsigned 32 0 } { dec_unsigned 32 1 } } }
{ return { s_mod 32 16 { dec_unsigned 32 0 } { dec_unsigned 32 1 } } }
{ return { l_shift 32 16 { dec_unsigned 32 0 } { dec_unsigned 32 1 } } }
{ return { r_shift 32 16 { dec_unsigned 32 0 } { dec_unsigned 32 1 } } }
{ return { r_shift_a 32 16 { dec_unsigned 32 0 } { dec_unsigned 32 1 } } }
{ return { and 32 { dec_unsigned 32 0 } { dec_unsigned 32 1 } } }
{ return { or 32 { dec_unsigned 32 0 } { dec_unsigned 32 1 } } }
{ return { xor 32 { dec_unsigned 32 0 } { dec_unsigned 32 1 } } }
{ return { eq 32 { dec_unsigned 32 0 } { dec_unsigned 32 1 } } }
{ return { neq 32 { dec_unsigned 32 0 } { dec_unsigned 32 1 } } }
{ return { u_lt 32 { dec_unsigned 32 0 } { dec_unsigned 32 1 } } }
{ return { u_le 32 { dec_unsigned 32 0 } { dec_unsigned 32 1 } } }
{ return { u_gt 32 { dec_unsigned 32 0 } { dec_unsigned 32 1 } } }
{ return { u_ge 32 { dec_unsigned 32 0 } { dec_unsigned 32 1 } } }
{ return { s_lt 32 { dec_unsigned 32 0 } { dec_unsigned 32 1 } } }
{ return { s_le 32 { dec_unsigned 32 0 } { dec_unsigned 32 1 } } }
{ return { s_gt 32 { dec_unsigned 32 0 } { dec_unsigned 32 1 } } }
{ return { s_ge 32 { dec_unsigned 32 0 } { dec_unsigned 32 1 } } }
{ return { s_ext 32 16 { dec_unsigned 32 0 } } }
{ return { z_ext 32 16 { dec_unsigned 32 0 } } }
{ return { trunc 32 16 { dec_unsigned 32 0 } } }
{ return { select 32 0 7 { dec_unsigned 32 0 } } }
{ return { conc 32 16 { dec_unsigned 32 0 } { dec_unsigned 32 1 } } }
{ return { if 32 { dec_unsigned 32 0 } { dec_unsigned 32 1 } { dec_unsigned 32 2 } } }
{ return { rot_l 32 16 { dec_unsigned 32 0 } { dec_unsigned 32 1 } } }
{ return { rot_r 32 16 { dec_unsigned 32 0 } { dec_unsigned 32 1 } } }
{ return { u_min 32 { dec_unsigned 32 0 } { dec_unsigned 32 1 } } }
{ return { u_max 32 { dec_unsigned 32 0 } { dec_unsigned 32 1 } } }
{ return { s_min 32 { dec_unsigned 32 0 } { dec_unsigned 32 1 } } }
{ return { s_max 32 { dec_unsigned 32 0 } { dec_unsigned 32 1 } } } } } } } }
"#;

const RETURNS_TWICE: &str =
    r#"{ alf { macro_defs } { least_addr_unit 8 } little_endian { exports { frefs } { lrefs } } { imports { frefs } { lrefs } } { decls } { inits } { funcs
{ func { label 32 { lref 32 "main" } { dec_unsigned 32 0 } } { arg_decls } { scope { decls } { inits } { stmts
{ return { dec_signed 32 7 } }
{ return { dec_signed 32 0 } } } } } } }
"#;

/// The text of this name. Empty where there is none.
pub fn text_named(name: &str) -> &'static str {
    match name {
        "tight" => TIGHT,
        "canonical" => CANONICAL,
        "operators" => OPERATORS,
        "returns twice" => RETURNS_TWICE,
        _ => "",
    }
}
