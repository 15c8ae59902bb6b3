//! Single cases, and whole programs.

use crate::walk::{steps, told};
use std::test::Fail;

// A pointer to one of two arrays, the shorter of which has no third word.
const ARRAYS: &str = "\
{ alf { macro_defs } { least_addr_unit 8 } little_endian { exports { frefs { fref 32 \"c\" } } { lrefs } } { \
imports { frefs } { lrefs } } { decls { alloc 32 \"c\" 32 } { alloc 32 \"a\" 64 } { alloc 32 \"b\" 128 } } { inits \
{ init { ref \"c\" { dec_unsigned 32 0 } } { dec_signed 32 0 } } { init { ref \"a\" { dec_unsigned 32 0 } } { \
dec_signed 32 0 } } { init { ref \"a\" { dec_unsigned 32 4 } } { dec_signed 32 0 } } { init { ref \"b\" { \
dec_unsigned 32 0 } } { dec_signed 32 0 } } { init { ref \"b\" { dec_unsigned 32 4 } } { dec_signed 32 0 } } { init \
{ ref \"b\" { dec_unsigned 32 8 } } { dec_signed 32 0 } } { init { ref \"b\" { dec_unsigned 32 12 } } { dec_signed \
32 0 } } } { funcs { func { label 32 { lref 32 \"main\" } { dec_unsigned 32 0 } } { arg_decls } { scope { decls { \
alloc 32 \"main::p\" 32 } } { inits } { stmts { switch { neq 32 { load 32 { addr 32 { fref 32 \"c\" } { \
dec_unsigned 32 0 } } } { dec_signed 32 0 } } { target { dec_unsigned 1 1 } { label 32 { lref 32 \"main::L0\" } { \
dec_unsigned 32 0 } } } { default { label 32 { lref 32 \"main::L1\" } { dec_unsigned 32 0 } } } } { label 32 { lref \
32 \"main::L0\" } { dec_unsigned 32 0 } } { store { addr 32 { fref 32 \"main::p\" } { dec_unsigned 32 0 } } with { \
addr 32 { fref 32 \"a\" } { dec_unsigned 32 0 } } } { jump { label 32 { lref 32 \"main::L2\" } { dec_unsigned 32 0 \
} } leaving 0 } { label 32 { lref 32 \"main::L1\" } { dec_unsigned 32 0 } } { store { addr 32 { fref 32 \"main::p\" \
} { dec_unsigned 32 0 } } with { addr 32 { fref 32 \"b\" } { dec_unsigned 32 0 } } } { label 32 { lref 32 \
\"main::L2\" } { dec_unsigned 32 0 } } { store { add 32 { load 32 { addr 32 { fref 32 \"main::p\" } { dec_unsigned \
32 0 } } } { trunc 64 32 { s_mul 32 32 { dec_signed 32 2 } { dec_signed 32 4 } } } { dec_unsigned 1 0 } } with { \
dec_signed 32 1 } } { return { load 32 { add 32 { addr 32 { fref 32 \"b\" } { dec_unsigned 32 0 } } { trunc 64 32 { \
s_mul 32 32 { dec_signed 32 2 } { dec_signed 32 4 } } } { dec_unsigned 1 0 } } } } { return { dec_signed 32 0 } } } \
} } } }";

// Insertion of each of ten numbers into those before it.
const SORT: &str = "\
{ alf { macro_defs } { least_addr_unit 8 } little_endian { exports { frefs } { lrefs } } { imports { frefs } { \
lrefs } } { decls { alloc 32 \"a\" 320 } } { inits { init { ref \"a\" { dec_unsigned 32 0 } } { dec_signed 32 0 } } \
{ init { ref \"a\" { dec_unsigned 32 4 } } { dec_signed 32 0 } } { init { ref \"a\" { dec_unsigned 32 8 } } { \
dec_signed 32 0 } } { init { ref \"a\" { dec_unsigned 32 12 } } { dec_signed 32 0 } } { init { ref \"a\" { \
dec_unsigned 32 16 } } { dec_signed 32 0 } } { init { ref \"a\" { dec_unsigned 32 20 } } { dec_signed 32 0 } } { \
init { ref \"a\" { dec_unsigned 32 24 } } { dec_signed 32 0 } } { init { ref \"a\" { dec_unsigned 32 28 } } { \
dec_signed 32 0 } } { init { ref \"a\" { dec_unsigned 32 32 } } { dec_signed 32 0 } } { init { ref \"a\" { \
dec_unsigned 32 36 } } { dec_signed 32 0 } } } { funcs { func { label 32 { lref 32 \"main\" } { dec_unsigned 32 0 } \
} { arg_decls } { scope { decls { alloc 32 \"main::i\" 32 } { alloc 32 \"main::j\" 32 } { alloc 32 \"main::key\" 32 \
} } { inits } { stmts { store { addr 32 { fref 32 \"main::i\" } { dec_unsigned 32 0 } } with { dec_signed 32 1 } } \
{ label 32 { lref 32 \"main::L0\" } { dec_unsigned 32 0 } } { switch { s_lt 32 { load 32 { addr 32 { fref 32 \
\"main::i\" } { dec_unsigned 32 0 } } } { dec_signed 32 10 } } { target { dec_unsigned 1 1 } { label 32 { lref 32 \
\"main::L1\" } { dec_unsigned 32 0 } } } { default { label 32 { lref 32 \"main::L3\" } { dec_unsigned 32 0 } } } } \
{ label 32 { lref 32 \"main::L1\" } { dec_unsigned 32 0 } } { store { addr 32 { fref 32 \"main::key\" } { \
dec_unsigned 32 0 } } with { load 32 { add 32 { addr 32 { fref 32 \"a\" } { dec_unsigned 32 0 } } { trunc 64 32 { \
s_mul 32 32 { load 32 { addr 32 { fref 32 \"main::i\" } { dec_unsigned 32 0 } } } { dec_signed 32 4 } } } { \
dec_unsigned 1 0 } } } } { store { addr 32 { fref 32 \"main::j\" } { dec_unsigned 32 0 } } with { sub 32 { load 32 \
{ addr 32 { fref 32 \"main::i\" } { dec_unsigned 32 0 } } } { dec_signed 32 1 } { dec_unsigned 1 1 } } } { label 32 \
{ lref 32 \"main::L4\" } { dec_unsigned 32 0 } } { switch { s_ge 32 { load 32 { addr 32 { fref 32 \"main::j\" } { \
dec_unsigned 32 0 } } } { dec_signed 32 0 } } { target { dec_unsigned 1 1 } { label 32 { lref 32 \"main::L7\" } { \
dec_unsigned 32 0 } } } { default { label 32 { lref 32 \"main::L6\" } { dec_unsigned 32 0 } } } } { label 32 { lref \
32 \"main::L7\" } { dec_unsigned 32 0 } } { switch { s_gt 32 { load 32 { add 32 { addr 32 { fref 32 \"a\" } { \
dec_unsigned 32 0 } } { trunc 64 32 { s_mul 32 32 { load 32 { addr 32 { fref 32 \"main::j\" } { dec_unsigned 32 0 } \
} } { dec_signed 32 4 } } } { dec_unsigned 1 0 } } } { load 32 { addr 32 { fref 32 \"main::key\" } { dec_unsigned \
32 0 } } } } { target { dec_unsigned 1 1 } { label 32 { lref 32 \"main::L5\" } { dec_unsigned 32 0 } } } { default \
{ label 32 { lref 32 \"main::L6\" } { dec_unsigned 32 0 } } } } { label 32 { lref 32 \"main::L5\" } { dec_unsigned \
32 0 } } { store { add 32 { addr 32 { fref 32 \"a\" } { dec_unsigned 32 0 } } { trunc 64 32 { s_mul 32 32 { add 32 \
{ load 32 { addr 32 { fref 32 \"main::j\" } { dec_unsigned 32 0 } } } { dec_signed 32 1 } { dec_unsigned 1 0 } } { \
dec_signed 32 4 } } } { dec_unsigned 1 0 } } with { load 32 { add 32 { addr 32 { fref 32 \"a\" } { dec_unsigned 32 \
0 } } { trunc 64 32 { s_mul 32 32 { load 32 { addr 32 { fref 32 \"main::j\" } { dec_unsigned 32 0 } } } { \
dec_signed 32 4 } } } { dec_unsigned 1 0 } } } } { store { addr 32 { fref 32 \"main::j\" } { dec_unsigned 32 0 } } \
with { sub 32 { load 32 { addr 32 { fref 32 \"main::j\" } { dec_unsigned 32 0 } } } { dec_signed 32 1 } { \
dec_unsigned 1 1 } } } { jump { label 32 { lref 32 \"main::L4\" } { dec_unsigned 32 0 } } leaving 0 } { label 32 { \
lref 32 \"main::L6\" } { dec_unsigned 32 0 } } { store { add 32 { addr 32 { fref 32 \"a\" } { dec_unsigned 32 0 } } \
{ trunc 64 32 { s_mul 32 32 { add 32 { load 32 { addr 32 { fref 32 \"main::j\" } { dec_unsigned 32 0 } } } { \
dec_signed 32 1 } { dec_unsigned 1 0 } } { dec_signed 32 4 } } } { dec_unsigned 1 0 } } with { load 32 { addr 32 { \
fref 32 \"main::key\" } { dec_unsigned 32 0 } } } } { label 32 { lref 32 \"main::L2\" } { dec_unsigned 32 0 } } { \
store { addr 32 { fref 32 \"main::i\" } { dec_unsigned 32 0 } } with { add 32 { load 32 { addr 32 { fref 32 \
\"main::i\" } { dec_unsigned 32 0 } } } { dec_signed 32 1 } { dec_unsigned 1 0 } } } { jump { label 32 { lref 32 \
\"main::L0\" } { dec_unsigned 32 0 } } leaving 0 } { label 32 { lref 32 \"main::L3\" } { dec_unsigned 32 0 } } { \
return { load 32 { add 32 { addr 32 { fref 32 \"a\" } { dec_unsigned 32 0 } } { trunc 64 32 { s_mul 32 32 { \
dec_signed 32 0 } { dec_signed 32 4 } } } { dec_unsigned 1 0 } } } } { return { dec_signed 32 0 } } } } } } }";

// What is so, the program, the inputs, the cells that are loaded, the chosen successors, and what is told of each step:
// the faults, and the next nodes with what the cells hold. Between two cases a line is free.
static CASES: &str = "\
a place has two frames
{ store &p with { if 32 { s_lt 32 *x #5 } &y &r } } { switch { s_lt 32 { load 32 *p } #5 } { target '1 @T } { \
  default @F } } @T { return } @F { return }
x 32 1 -4 10;y 32 1 0 10;r 32 1 0 20
p3:0/32 p1:0/32 p2:0/32
0 0
/ 1( none uninit w32:0..10/1 w32:0..20/1 )/ 2( p1:0|p2:0 w32:0..10/1 w32:0..20/1 ) 3( p1:0|p2:0 w32:0..10/1 \
  w32:0..20/1 )

a place has two offsets
{ switch { s_lt 32 { load 32 { add 32 &w { if 32 { s_lt 32 *x #5 } #0 #4 } '0 } } #5 } { target '1 @T } { default \
  @F } } @T { return } @F { return }
x 32 1 -4 10;w 32 2 0 10
p6:0/32 p6:4/32
0 0
/ 1( w32:0..10/1 w32:0..10/1 )/ 2( w32:0..10/1 w32:0..10/1 ) 3( w32:0..10/1 w32:0..10/1 )

a place has a pointer beside words
{ store &p with { if 32 { s_lt 32 *x #5 } &y #3 } } { switch *p { target #3 @T } { default @F } } @T { return } @F \
  { return }
x 32 1 -4 10
p3:0/32
0 0
/ 1( none uninit )/ kind 2( w32:3|p1:0 )

the other side has a pointer beside words
{ store &p with { if 32 { s_lt 32 *x #5 } &y #3 } } { switch { s_lt 32 *x *p } { target '1 @T } { default @F } } @T \
  { return } @F { return }
x 32 1 -4 10
p0:0/32 p3:0/32
0 0
/ 1( w32:-4..10/1 none uninit )/ kind 2( w32:-4..10/1 w32:3|p1:0 ) 3( w32:-4..10/1 w32:3|p1:0 )

an address has words beside a pointer
{ store &p with { if 32 { s_lt 32 *x #5 } &y #3 } } { switch { s_lt 32 { load 32 *p } #5 } { target '1 @T } { \
  default @F } } @T { return } @F { return }
x 32 1 -4 10;y 32 1 0 10
p1:0/32
0 0
/ 1( w32:0..10/1 )/ kind 2( w32:0..10/1 ) 3( w32:0..10/1 )

one of two cells does not fit its frame
{ switch { s_lt 32 { load 32 { add 32 &x { if 32 { s_lt 32 *y #5 } #0 #4 } '0 } } #5 } { target '1 @T } { default \
  @F } } @T { return } @F { return }
x 32 1 -4 10;y 32 1 0 10
p0:0/32
0 0
/ 1( w32:-4..10/1 )/ bounds 2( w32:-4..10/1 ) 3( w32:-4..10/1 )

the one cell does not fit its frame
{ switch { s_lt 32 { load 32 { add 32 &x #2 '0 } } #5 } { target '1 @T } { default @F } } @T { return } @F { return \
  }
x 32 1 -4 10
p0:0/32
0 0
/ 1( w32:-4..10/1 )/ bounds

both sides are one place
{ switch { s_lt 32 *x *x } { target '1 @T } { default @F } } @T { return } @F { return }
x 32 1 -4 10
p0:0/32
0 0
/ 1( w32:-4..10/1 )/ 2( w32:-3..10/1 ) 3( w32:-4..10/1 )

nothing is left of a side
{ store &r with { if 32 { s_lt 32 *x #5 } #0 #8 } } { switch { eq 32 *r *y } { target '1 @T } { default @F } } @T { \
  return } @F { return }
x 32 1 -4 10;y 32 1 3 5
p2:0/32 p1:0/32
0 0
/ 1( none uninit w32:3..5/1 )/ 3( w32:0..8/8 w32:3..5/1 )

targets exclude one another
{ switch *x { target #0 @A } { target #4 @B } { target #9 @B } { default @C } } @A { return } @B { return } @C { \
  switch *x { target #4 @A } { target #2 @B } { default @D } } @D { switch { u_gt 32 *x #3 } { target '1 @A } { \
  default @B } }
x 32 1 0 4
p0:0/32
0 2 1 0 0
/ 1( w32:0..4/1 )/ 2( w32:0 ) 3( w32:4 ) 4( w32:1..3/1 )/ 3( w32:2 ) 5( w32:1..3/1 )/ 3( w32:1..3/1 )/ end

a switch on an extended place
{ switch { s_ext 8 32 *8c } { target #4294967292 @A } { default @B } } @A { return } @B { return }
c 8 1 -4 10
p4:0/8
0 0
/ 1( w8:-4..10/1 )/ 2( w8:-4 ) 3( w8:-3..10/1 )

a switch on a pointer
{ switch &x { default @E } } @E { return }
x 32 1 0 1
p0:0/32
0 0
/ 1( w32:0..1/1 )/ kind

a condition on what was not stored
{ switch { s_lt 32 *own #5 } { target '1 @E } { default @E } } @E { return }
x 32 1 0 1
p7:0/32
0 0
/ 1( none uninit )/ uninit

a condition on what was perhaps not stored
{ store { add 32 &w { if 32 { s_lt 32 *x #5 } #0 #4 } '0 } with #7 } { switch { eq 32 *w #7 } { target '1 @T } { \
  default @F } } @T { return } @F { return }
x 32 1 -4 10
p6:0/32 p6:4/32
0 0
/ 1( none uninit none uninit )/ uninit 2( w32:7 w32:7 uninit )

faults of operands are united
{ store &r with { add 32 { u_div 32 32 *x *y } *own '0 } } @E { return }
x 32 1 0 10;y 32 1 0 3
p2:0/32
0 0
/ 1( none uninit )/ uninit divide

values that are left go on after a fault
{ store &r with { u_div 32 32 *x *y } } { switch { s_lt 32 *r #5 } { target '1 @T } { default @F } } @T { return } \
  @F { return }
x 32 1 0 10;y 32 1 0 3
p2:0/32 p1:0/32
0 0
/ 1( none uninit w32:0..3/1 )/ divide 2( w32:0..4/1 w32:0..3/1 ) 3( w32:5..10/1 w32:0..3/1 )

a store through two frames of which one is too short
{ store &p with { if 32 { s_lt 32 *x #5 } &x &w } } { store { add 32 *p #4 '0 } with #1 } @E { return }
x 32 1 -4 10
p0:0/32 p3:0/32 p6:4/32
0 0 0
/ 1( w32:-4..10/1 none uninit none uninit )/ bounds 2( w32:-4..10/1 p0:0|p6:0 w32:1 )/ end

a call with arguments of three sizes
{ call @f *8c { add 32 *x #1 '0 } *64w result &r } { return } %f { store &own with *b } { return { z_ext 8 32 *8a } \
  }
c 8 1 -4 10;x 32 1 -4 10;w 64 1 0 100
p8:0/8 p9:0/32 p10:0/64 p10:0/32 p11:0/32 p2:0/32
0 0 0 0 0
/ 1( none dead none dead none dead none dead none dead none uninit )/ 3( w8:-4..10/1 w32:-3..11/1 w64:0..100/1 \
  w32:0..100/1 none uninit none uninit )/ 4( w8:-4..10/1 w32:-3..11/1 w64:0..100/1 w32:0..100/1 none uninit none \
  uninit )/ 2( none dead none dead none dead none dead none dead w32:0..255/1 )/ end

an argument faults
{ call @f *8c { u_div 32 32 *x *y } *64w result &r } { return } %f { return *b }
c 8 1 0 0;x 32 1 6 6;y 32 1 0 2;w 64 1 1 1
p8:0/8 p9:0/32 p10:0/64
0 0
/ 1( none dead none dead none dead )/ divide 3( w8:0 w32:3..6/1 w64:1 )";

// The same of programs by their texts.
static PROGRAMS: &str = "\
the pointer is to the short array
arrays
c 32 1 0 1
p0:0/32 p3:0/32 p2:8/32
0 0 0 0
/ 1( w32:0..1/1 none uninit w32:0 )/ 2( w32:1 none uninit w32:0 ) 3( w32:0 none uninit w32:0 )/ 4( w32:1 p1:0 w32:0 \
  )/ bounds

the pointer is to the long array
arrays
c 32 1 0 1
p0:0/32 p3:0/32 p2:8/32
0 1 0 0
/ 1( w32:0..1/1 none uninit w32:0 )/ 2( w32:1 none uninit w32:0 ) 3( w32:0 none uninit w32:0 )/ 4( w32:0 p2:0 w32:0 \
  )/ end

two numbers of three are sorted
sort
a 32 10 -100 100
p1:0/32 p2:0/32 p3:0/32 p0:0/32 p0:4/32 p0:8/32
0 0 0 0 0 0 0 0 0 0 0 0 0 0
/ 1( none uninit none uninit none uninit w32:-100..100/1 w32:-100..100/1 w32:-100..100/1 )/ 2( w32:1 none uninit \
  none uninit w32:-100..100/1 w32:-100..100/1 w32:-100..100/1 )/ 3( w32:1 none uninit none uninit w32:-100..100/1 \
  w32:-100..100/1 w32:-100..100/1 )/ 4( w32:1 w32:0 w32:-100..100/1 w32:-100..100/1 w32:-100..100/1 w32:-100..100/1 \
  )/ 5( w32:1 w32:0 w32:-100..100/1 w32:-100..100/1 w32:-100..100/1 w32:-100..100/1 )/ 6( w32:1 w32:0 \
  w32:-100..99/1 w32:-99..100/1 w32:-100..100/1 w32:-100..100/1 ) 7( w32:1 w32:0 w32:-100..100/1 w32:-100..100/1 \
  w32:-100..100/1 w32:-100..100/1 )/ 4( w32:1 w32:-1 w32:-100..99/1 w32:-99..100/1 w32:-99..100/1 w32:-100..100/1 \
  )/ 7( w32:1 w32:-1 w32:-100..99/1 w32:-99..100/1 w32:-99..100/1 w32:-100..100/1 )/ 8( w32:1 w32:-1 w32:-100..99/1 \
  w32:-100..99/1 w32:-99..100/1 w32:-100..100/1 )/ 2( w32:2 w32:-1 w32:-100..99/1 w32:-100..99/1 w32:-99..100/1 \
  w32:-100..100/1 )/ 3( w32:2 w32:-1 w32:-100..99/1 w32:-100..99/1 w32:-99..100/1 w32:-100..100/1 )/ 4( w32:2 w32:1 \
  w32:-100..100/1 w32:-100..99/1 w32:-99..100/1 w32:-100..100/1 )/ 5( w32:2 w32:1 w32:-100..100/1 w32:-100..99/1 \
  w32:-99..100/1 w32:-100..100/1 )/ 6( w32:2 w32:1 w32:-100..99/1 w32:-100..99/1 w32:-99..100/1 w32:-100..100/1 ) \
  7( w32:2 w32:1 w32:-99..100/1 w32:-100..99/1 w32:-99..100/1 w32:-100..100/1 )";

// The line of a case with this number.
fn line(case: &str, number: usize) -> &str {
    case.split('\n').nth(number).unwrap_or("")
}

// The text of a program.
fn text_of(name: &str) -> &'static str {
    match name {
        "arrays" => ARRAYS,
        _ => SORT,
    }
}

#[test]
fn steps_refine_what_conditions_tell(rt: HostRuntime) -> Result<(), Fail> {
    let alloc = rt.alloc();
    assert_eq!(rt; CASES.split("\n\n").count(), 19);
    for case in CASES.split("\n\n") {
        let found = steps(
            alloc,
            line(case, 1),
            line(case, 2),
            line(case, 3),
            line(case, 4),
        )?;
        assert_eq!(rt; found.as_str(), line(case, 5), "{}", line(case, 0));
    }
    Ok(())
}

#[test]
fn programs_are_stepped_for_a_few_turns(rt: HostRuntime) -> Result<(), Fail> {
    let alloc = rt.alloc();
    assert_eq!(rt; PROGRAMS.split("\n\n").count(), 3);
    for case in PROGRAMS.split("\n\n") {
        let text = text_of(line(case, 1));
        let found = told(alloc, text, line(case, 2), line(case, 3), line(case, 4))?;
        assert_eq!(rt; found.as_str(), line(case, 5), "{}", line(case, 0));
    }
    Ok(())
}
