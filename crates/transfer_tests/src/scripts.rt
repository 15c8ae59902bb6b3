//! Scripts of calls, with what each call tells by the rules.
//!
//! The first five are worked rows: a store at one of four cells of a frame of 128 bits, and a copy. The others were
//! worked out by hand.

use crate::program::checked_text;
use crate::steps::told_script;
use crate::values::field;
use std::test::Fail;

// What is tried, a script, and what its steps tell; between two of these a line is free.
static CASES: &str = "\
four cells that are stored, and one store at one of them
store p0:0 w32:0; store p0:4 w32:0; store p0:8 w32:0; store p0:12 w32:0; store p0:0,4,8,12 w32:7; load p0:8 32
ok; ok; ok; ok; ok; w32:0..7/7

one store at one of four cells
store p0:0,4,8,12 w32:7; load p0:8 32
ok; w32:7 uninit

half of a cell after it
store p0:0,4,8,12 w32:7; load p0:8 16
ok; w16:7 uninit

a cell that ends past its frame
store p0:0,4,8,12 w32:7; load p0:14 32
ok; none bounds

a store into a copy
store p1:0 w32:5; store p1:64 w32:6; copy; swap; store p1:0 w32:9; load p1:0 32; swap; load p1:0 32; load p1:64 32
ok; ok; ok; w32:9; w32:5; w32:6

a cell that is stored twice
store p0:0 w32:5; store p0:0 w32:9; load p0:0 32
ok; ok; w32:9

loads of each size
store p0:0 w64:578437695752307201; load p0:0 8; load p0:7 8; load p0:0 16; load p0:1 24; load p0:2 32; load p0:3 40; \
  load p0:2 48; load p0:1 56; load p0:0 64
ok; w8:1; w8:8; w16:513; w24:262914; w32:100992003; w40:34477573380; w48:8826258785283; w56:2259522249032450; \
  w64:578437695752307201

loads of each size over a page's end
store p1:60 w64:578437695752307201; load p1:60 8; load p1:63 8; load p1:64 8; load p1:63 16; load p1:62 32; \
  load p1:61 48; load p1:60 64; load p1:64 32; load p1:67 16
ok; w8:1; w8:4; w8:5; w16:1284; w32:100992003; w48:7722435347202; w64:578437695752307201; w32:134678021; none uninit

a store over the end of a cell
store p0:0 w32:1; store p0:2 w32:2; load p0:0 32; load p0:2 32; load p0:4 16; load p0:4 32
ok; ok; w32:131073; w32:2; w16:0; none uninit

a store over the start of a cell
store p0:2 w32:2; store p0:0 w32:1; load p0:2 32; load p0:0 32; load p0:4 16
ok; ok; w32:0; w32:1; w16:0

a store within a cell
store p0:4 w32:16909060; store p0:5 w8:9; load p0:4 32; load p0:4 8; load p0:5 8; load p0:6 16
ok; ok; w32:16910596; w8:4; w8:9; w16:258

a smaller cell at the same offset
store p0:0 w64:1; store p0:0 w16:7; load p0:0 64; load p0:0 16; load p0:0 32
ok; ok; w64:7; w16:7; w32:7

a store around a cell
store p0:2 w8:3; store p0:0 w32:0; load p0:2 8; load p0:0 32
ok; ok; w8:0; w32:0

cells side by side
store p0:0 w32:1; store p0:4 w32:2; load p0:0 32; load p0:4 32; load p0:2 32
ok; ok; w32:1; w32:2; w32:131072

a cell that is partly stored
store p0:0 w8:5; load p0:0 16; load p0:0 8; load p0:1 8
ok; none uninit; w8:5; none uninit

possible cells that share bytes
store p0:0 w32:0; store p0:0,2 w32:1; load p0:0 32; load p0:2 32; load p0:2 16
ok; ok; w32:0..65537/1; w32:1 uninit; w16:0..1/1

possible cells apart, and one beside them
store p0:0 w32:1; store p0:4 w32:2; store p0:8 w32:3; store p0:0,4 w32:5; load p0:0 32; load p0:4 32; load p0:8 32; \
  load p0:0,4,8 32
ok; ok; ok; ok; w32:1..5/4; w32:2..5/3; w32:3; w32:1..5/1

a possible store within a cell
store p0:0 w64:0; store p0:0,4 w8:1; load p0:0 64; load p0:0 8; load p0:4 8
ok; ok; w64:0..4294967297/1; w8:0..1/1; w8:0..1/1

a store at one of two frames
store p0:0 w32:1; store p1:0 w32:2; store p0:0|p1:0 w32:7; load p0:0 32; load p1:0 32
ok; ok; ok; w32:1..7/6; w32:2..7/5

the one offset that fits
store p0:12,16 w32:7; load p0:12 32
ok bounds; w32:7

a word as an address
store w32:5|p0:0 w32:7; load p0:0 32; load w32:5|p0:0 32; load w32:5 32; store w32:5 w32:7
ok kind; w32:7; w32:7 kind; none kind; stop kind

a pointer and its bytes
store p0:4 p2:4; load p0:4 32; load p0:4 8; load p0:6 16; load p0:4 64
ok; p2:4; none mixed; none mixed; none uninit

a pointer that a byte was stored in
store p0:4 p2:4; store p0:7 w8:0; load p0:4 32; load p0:7 8; load p0:4 24
ok; ok; none mixed; w8:0; none mixed

a pointer that each byte was stored in
store p0:4 p2:4; store p0:4 w16:258; store p0:6 w16:3; load p0:4 32
ok; ok; ok; w32:196866

a word or a pointer
store p0:0 w32:5|p2:0; load p0:0 32; load p0:0 8
ok; w32:5|p2:0; w8:5 mixed

a pointer or another
store p0:0 p2:0; store p0:4 p2:0; store p0:0,4 p1:8; load p0:0 32
ok; ok; ok; p1:8|p2:0

a pointer to several offsets
store p0:0 p1:0,8; load p0:0 32
ok; p1:0..8/8

a function that does not run
load p2:0 32; store p2:0 w32:1; enter 0; load p2:0 32; store p2:0 w32:1; load p2:0 32; leave 0; load p2:0 32
none dead; stop dead; none uninit; ok; w32:1; none dead

a function that is entered after stores
enter 0; store p2:0 w32:9; enter 0; load p2:0 32; store p2:0 w8:1; load p2:0 8
ok; none uninit; ok; w8:1

a function that another enters
enter 0; store p2:0 w32:9; store p0:0 w32:8; enter 1; load p2:0 32; load p0:0 32; load p4:0 8; store p4:0 w64:3; \
  leave 1; load p4:0 64; load p2:0 32
ok; ok; w32:9; w32:8; none uninit; ok; none dead; w32:9

a store at an active frame or another
store p0:0|p2:0 w32:7; load p0:0 32; enter 0; load p2:0 32; store p0:0|p2:0 w32:9; load p0:0 32; load p2:0 32
ok dead; w32:7; none uninit; ok; w32:7..9/2; w32:9 uninit

no frame
load p9:0 8; store p9:0 w8:1
none dead; stop dead

cells that are there
has 0 12 32; has 0 13 32; has 2 0 64; enter 0; has 2 0 64; has 2 1 64; has 9 0 8; has 1 76 32; has 1 77 32
yes; no; no; yes; no; no; yes; no

a join of a cell that one side stored
store p0:0 w32:1; copy; store p0:4 w32:2; join; load p0:0 32; load p0:4 32; load p0:4 8
ok; ok; w32:1; w32:2 uninit; w8:2 uninit

a join of a cell that one side has in bytes
store p0:0 w32:0; copy; store p0:0 w8:5; join; load p0:0 32; load p0:0 8
ok; ok; w32:0..5/5; w8:0..5/5

a join of two words
store p0:0 w32:1; copy; store p0:0 w32:3; join; load p0:0 32; load p0:0 8; load p0:0 16
ok; ok; w32:1..3/2; w8:1..3/2; w16:1..3/2

a join of a word and a pointer
store p0:0 w32:5; copy; store p0:0 p2:0; join; load p0:0 32; load p0:0 8
ok; ok; w32:5|p2:0; w8:5 mixed

a join where a page is the same
store p1:62 w32:1; copy; store p1:0 w8:9; join; load p1:62 32; load p1:0 8; load p1:63 16
ok; ok; w32:1; w8:9 uninit; w16:0

a join in a function
enter 0; store p2:0 w32:1; copy; store p2:0 w32:2; store p2:4 w32:3; join; load p2:0 32; load p2:4 32
ok; ok; ok; w32:1..2/1; w32:3 uninit

a pin, and then bytes
store p0:0 w32:0,7; pin 0 0 w32:7; load p0:0 32; load p0:0 8; load p0:0 16
ok; w32:7; w8:0..7/7; w16:0..7/7

a pin of a cell without a store
pin 0 4 w32:3; load p0:4 32; load p0:4 8; load p0:4 16
w32:3; none uninit; none uninit

a pin that is stored over
store p0:0,4 w32:7; load p0:0 32; pin 0 0 w32:7; load p0:0 32; store p0:2 w8:1; load p0:0 32
ok; w32:7 uninit; w32:7; ok; w32:65543 uninit

a pin over a page's end
pin 1 62 w32:9; load p1:62 32; store p1:64 w8:1; load p1:62 32
w32:9; ok; none uninit

a store at the start of a page
store p1:57 w64:1; store p1:64 w8:2; load p1:57 64; load p1:57 56; load p1:64 8
ok; ok; w64:144115188075855873; w56:1; w8:2

possible stores on a page, in a cell from the page before
store p1:60 w64:0; store p1:64,66 w8:1; load p1:60 64; load p1:64 8; load p1:60 32; load p1:60 8
ok; ok; w64:0..281479271677952/4294967296; w8:0..1/1; w32:0; w8:0

loads from two pages
store p1:60 w32:1; store p1:64 w32:2; store p1:68 w32:3; load p1:60,64,68 32; load p1:62,66 32
ok; ok; ok; w32:1..3/1; w32:131072..196608/65536

a copy with a page of its own
store p1:60 w64:1; copy; store p1:67 w8:5; load p1:60 64; swap; load p1:60 64; load p1:67 8
ok; ok; w64:360287970189639681; w64:1; w8:0

offsets from far up
store p0:0 w32:7; load p0:4294967292,0,4 32; store p0:4294967292,0 w32:9; load p0:0 32
ok; w32:7 uninit bounds; ok bounds; w32:9

a frame of four bytes
enter 1; store p3:0 w32:5; load p3:0 32; load p3:0 64; load p3:1 32; load p3:3 8; load p3:4 8
ok; w32:5; none bounds; none bounds; w8:0; none bounds";

#[test]
fn steps_tell_what_the_rules_say(rt: HostRuntime) -> Result<(), Fail> {
    let alloc = rt.alloc();
    let checked = checked_text(alloc)?;
    assert_eq!(rt; CASES.split("\n\n").count(), 49);
    for case in CASES.split("\n\n") {
        let (name, script) = (field(case, "\n", 0), field(case, "\n", 1));
        let told = told_script(alloc, &checked, script)?;
        assert_eq!(rt; told.as_str(), field(case, "\n", 2), "{name}");
    }
    Ok(())
}
