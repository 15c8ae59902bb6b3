//! Files that are damaged or too long, reads that fail, each in its turn, and writes that fail.

use crate::tables::hold;
use std::test::Fail;

// Words, the number of the read that is to fail, what is told, and the name that is kept.
const READS: &str = r#"$0
a.alf alf - | - | .
i.toml text input=[]
c.toml text default=1
r text facts 2;node 0 0 0 "main":entry;node 1 0 1 "main":0;scope 0 - 0 call;total 0 1 1;total 1 1 1;count-bound 1;path-bound 1 least;end;
fail $1 -
=> $3: 5 fault read $2;

analyse b.alf | 9 | program | b.alf
analyse b.alf --turns 5 | 9 | program | b.alf
analyse a.alf | 0 | program | a.alf
analyse a.alf --costs c.toml | 0 | program | a.alf
analyse a.alf --costs c.toml | 1 | costs | c.toml
analyse a.alf --costs no.toml | 9 | costs | no.toml
analyse a.alf --inputs i.toml | 1 | inputs | i.toml
analyse a.alf --costs c.toml --inputs i.toml | 1 | inputs | i.toml
analyse a.alf --costs c.toml --inputs i.toml | 2 | costs | c.toml
analyse a.alf --inputs i.toml --costs c.toml | 0 | program | a.alf
analyse a.alf --inputs no.toml --costs no.toml | 9 | inputs | no.toml
analyse b.alf --inputs no.toml --costs no.toml | 9 | program | b.alf
print a.alf | 0 | program | a.alf
print b.alf | 9 | program | b.alf
print a.c | 9 | program | a.c
print a.c | 0 | program | a.c
print -- -a.c | 9 | program | -a.c
run a.alf | 0 | program | a.alf
run - | 9 | program | -
run a.C | 9 | program | a.C
run -- -a.alf | 9 | program | -a.alf
run a.alf --inputs i.toml --costs c.toml | 0 | program | a.alf
run a.alf --inputs i.toml --costs c.toml | 1 | inputs | i.toml
run a.alf --inputs i.toml --costs c.toml | 2 | costs | c.toml
run a.alf --costs c.toml --inputs i.toml | 1 | inputs | i.toml
run a.alf --costs c.toml --inputs i.toml | 2 | costs | c.toml
run a.alf --costs c.toml | 1 | costs | c.toml
run a.alf --inputs a.c --costs no.toml | 9 | inputs | a.c
run a.alf --inputs i.toml --costs no.toml | 9 | costs | no.toml
run a.alf --turns 1 --costs no.toml | 9 | costs | no.toml
run b.alf --inputs no.toml --costs no.toml | 9 | program | b.alf
check b.alf i.toml | 9 | program | b.alf
check a.alf i.toml | 0 | program | a.alf
check a.alf no | 9 | report | no
check a.alf i.toml --inputs i.toml --costs c.toml | 1 | inputs | i.toml
check a.alf i.toml --inputs i.toml --costs c.toml | 2 | costs | c.toml
check a.alf i.toml --inputs i.toml --costs c.toml | 3 | report | i.toml
check --costs no.toml a.alf no | 9 | costs | no.toml
replay b.alf r | 9 | program | b.alf
replay a.alf no --at no.toml | 9 | report | no
replay a.alf r --at no.toml | 9 | values | no.toml
replay a.alf r --at i.toml --inputs i.toml --costs c.toml | 3 | report | r
replay a.alf r --at i.toml --inputs i.toml --costs c.toml | 4 | values | i.toml
migrate no | 9 | report | no
migrate r | 0 | report | r
tasks u.toml | 9 | tasks | u.toml
tasks i.toml | 0 | tasks | i.toml
worst a.alf | 0 | program | a.alf
worst a.alf --inputs no.toml --costs no.toml | 9 | inputs | no.toml
worst a.alf --inputs i.toml --costs c.toml | 1 | inputs | i.toml
worst a.alf --inputs i.toml --costs c.toml | 2 | costs | c.toml
cache a.alf --sets 1 --ways 1 --line 4 --penalty 1 | 0 | program | a.alf
cache a.alf --sets 1 --ways 1 --line 4 --penalty 1 --inputs no.toml | 9 | inputs | no.toml
cache a.alf --sets 1 --ways 1 --line 4 --penalty 1 --inputs i.toml --costs c.toml | 1 | inputs | i.toml
cache a.alf --sets 1 --ways 1 --line 4 --penalty 1 --inputs i.toml --costs c.toml | 2 | costs | c.toml
lower b.c | 9 | program | b.c
lower b.c | 0 | program | b.c


$0
a.alf named insertion sort
i.toml text $2
fail $1 -
=> $4: 5 fault read $3;

// the second read of a program that sorts
analyse a.alf --inputs i.toml | 1 | [[input]];frame = "a";offset = 0;size = 32;count = 10;low = -100;high = 100 | inputs | i.toml"#;

#[test]
fn a_read_that_fails_is_told_in_its_turn(rt: HostRuntime) -> Result<(), Fail> {
    hold(rt.alloc(), READS)
}

// Words, the number of a read that would fail and is not made, and the code. No name is kept.
const UNREAD: &str = r#"$0
a.alf alf - | - | .
i.toml text input=[]
c.toml text default=1
r text facts 2;node 0 0 0 "main":entry;node 1 0 1 "main":0;scope 0 - 0 call;total 0 1 1;total 1 1 1;count-bound 1;path-bound 1 least;end;
fail $1 -
=> $2 ..

run a.alf --turns 0 | 0 | 1
analyse a.alf --inputs i.toml --merge all | 0 | 1
analyse a.alf --inputs i.toml --root f | 1 | 2
analyse a.alf --inputs a.alf --costs c.toml | 2 | 2
analyse a.alf --inputs i.toml | 2 | 0
analyse a.alf --inputs i.toml --costs c.toml | 3 | 0
analyse a.alf --inputs i.toml --turns 1 | 2 | 3
print a.alf --root main | 0 | 1
print a.c --root main | 0 | 1
run a.alf --inputs i.toml --root f | 1 | 2
run a.alf --costs c.toml --root f | 1 | 2
run a.alf --inputs a.alf --costs c.toml | 2 | 2
analyse a.alf --costs a.alf | 2 | 2
run a.alf | 1 | 0
analyse a.alf | 1 | 0
print a.alf | 1 | 0
run a.alf --inputs i.toml | 2 | 0
run a.alf --costs c.toml | 2 | 0
run a.alf --inputs i.toml --costs c.toml | 3 | 0
run a.alf --inputs i.toml --costs i.toml | 3 | 2
analyse a.alf --costs c.toml | 2 | 0
check a.alf i.toml --root f | 1 | 2
check a.alf i.toml --inputs a.alf | 2 | 2
check a.alf i.toml --inputs i.toml --costs a.alf | 3 | 2
check a.alf i.toml | 2 | 2
check a.alf i.toml --inputs i.toml --costs c.toml | 4 | 2
check a.alf r | 2 | 4
replay a.alf i.toml --at i.toml | 2 | 2
replay a.alf r --at i.toml | 3 | 2
replay a.alf r | 2 | 0
replay a.alf r --root f --at i.toml | 1 | 2
migrate r | 1 | 0
generate 1 | 0 | 0
worst a.alf --inputs i.toml --root f | 1 | 2
worst a.alf --inputs a.alf --costs c.toml | 2 | 2
worst a.alf --inputs i.toml --costs c.toml | 3 | 0
cache a.alf --sets 1 --ways 1 --line 4 --penalty 1 --inputs i.toml --root f | 1 | 2
cache a.alf --sets 1 --ways 1 --line 4 --penalty 1 --inputs a.alf --costs c.toml | 2 | 2
cache a.alf --sets 1 --ways 1 --line 4 --penalty 1 --inputs i.toml --costs c.toml | 3 | 0
tasks i.toml | 1 | 2
lower a.alf | 0 | 1
run a.alf --turns 1 | 1 | 3"#;

#[test]
fn no_file_is_read_but_in_its_turn(rt: HostRuntime) -> Result<(), Fail> {
    hold(rt.alloc(), UNREAD)
}

// How many writes there are, each of which fails after a number of bytes, from 0 to all; words, and the text that
// answers them.
const WRITES: &str = r#"each $0
$1
a.alf alf - | - | .
fail - ~
=> first ~ of $2

131 | analyse a.alf | facts 2;node 0 0 0 "main":entry;node 1 0 1 "main":0;scope 0 - 0 call;total 0 1 1;total 1 1 1;count-bound 1;path-bound 1 least;end;
25 | run a.alf | returned;turns 2;cost 1;
26 | run a.alf --turns 1 | unbounded 0 "main":entry;
19 | run a.alf --root f | fault 24 root "f";
13 | run | fault usage;


$0
a.alf alf - | - | .
fail $1
=> $2

// the first five bytes
analyse a.alf | - 5 | 6 facts
// one read and one write are made: a second one of either would fail
analyse a.alf | 1 0 1 | 0 facts 2;node 0 0 0 "main":entry;node 1 0 1 "main":0;scope 0 - 0 call;total 0 1 1;total 1 1 1;count-bound 1;path-bound 1 least;end;"#;

#[test]
fn a_write_that_fails_leaves_a_prefix(rt: HostRuntime) -> Result<(), Fail> {
    hold(rt.alloc(), WRITES)
}

// Words, and how many bytes a program has: at the limit, and one past it.
const LENGTHS: &str = r#"$0
a.alf fill $1 space

analyse a.alf | 1048576 => 2 fault 10 syntax 1 1048577;
analyse a.alf | 1048577 => 2 fault 13 limit bytes 1048577;
print a.alf | 1048577 => 2 fault 13 limit bytes 1048577;
run a.alf | 1048576 => 2 fault 10 syntax 1 1048577;
run a.alf | 1048577 => 2 fault 13 limit bytes 1048577;


$0
a.alf fill $1 {

// braces
analyse a.alf | 1000000 => 2 fault 10 syntax 1 2;"#;

#[test]
fn a_program_has_at_most_so_many_bytes(rt: HostRuntime) -> Result<(), Fail> {
    hold(rt.alloc(), LENGTHS)
}

// Words, and how many line feeds a file of inputs, costs, values or tasks has.
const TABLE_LENGTHS: &str = r#"$0
a.alf alf - | - | .
r text facts 2;node 0 0 0 "main":entry;node 1 0 1 "main":0;scope 0 - 0 call;total 0 1 1;total 1 1 1;count-bound 1;path-bound 1 least;end;
t.toml fill $1 feed

run a.alf --inputs t.toml | 1048576 => 0 returned;turns 2;cost 1;
run a.alf --inputs t.toml | 1048577 => 2 fault 13 limit bytes 1048577;
run a.alf --costs t.toml | 1048576 => 0 returned;turns 2;cost 1;
run a.alf --costs t.toml | 1048577 => 2 fault 13 limit bytes 1048577;
run a.alf --inputs t.toml --costs no.toml | 1048577 => 2 fault 13 limit bytes 1048577;
run a.alf --inputs a.alf --costs t.toml | 1048577 => 2 fault 70 toml inputs;
analyse a.alf --inputs t.toml --costs no.toml | 1048577 => 2 fault 13 limit bytes 1048577;
analyse a.alf --costs t.toml | 1048577 => 2 fault 13 limit bytes 1048577;
tasks t.toml | 1048577 => 2 fault 13 limit bytes 1048577;
replay a.alf r --at t.toml | 1048576 => 2 fault 71 key values -;
replay a.alf r --at t.toml | 1048577 => 2 fault 13 limit bytes 1048577;"#;

#[test]
fn a_table_has_at_most_so_many_bytes(rt: HostRuntime) -> Result<(), Fail> {
    hold(rt.alloc(), TABLE_LENGTHS)
}

// Words, and how many line feeds a report has.
const REPORT_LENGTHS: &str = r#"$0
a.alf alf - | - | .
t.toml fill $1 feed

replay a.alf t.toml --at no | 67108865 => 2 fault 13 limit bytes 67108865;
check a.alf t.toml | 67108865 => 2 fault 13 limit bytes 67108865;"#;

#[test]
fn a_report_has_at_most_so_many_bytes(rt: HostRuntime) -> Result<(), Fail> {
    hold(rt.alloc(), REPORT_LENGTHS)
}

// The same of one that is to be written in the second form.
const MIGRATED_LENGTHS: &str = r#"migrate t.toml
t.toml fill $0 feed

67108864 => 2 fault 60 syntax 1 1;
67108865 => 2 fault 13 limit bytes 67108865;"#;

#[test]
fn a_report_that_is_migrated_has_at_most_so_many_bytes(rt: HostRuntime) -> Result<(), Fail> {
    hold(rt.alloc(), MIGRATED_LENGTHS)
}

// Numbers at a limit, and past it.
const NUMBERS: &str = r#"$0
a.alf times 1 { alf { macro_defs } { least_addr_unit 8 } little_endian { exports { frefs } { lrefs } } { imports { frefs } { lrefs } } { decls } { inits } { funcs { func { label 32 { lref 32 "main" } { dec_unsigned 32 0 } } { arg_decls } { scope { decls } { inits } { stmts { return & $1 { not 32 & 1 { dec_unsigned 32 0 } & $1 } & 1 } } } } } }

// numbers inside of one another
analyse a.alf | 64 => 2 fault 13 limit depth 65;
analyse a.alf | 63 => 0 facts 2;..
run a.alf | 64 => 2 fault 13 limit depth 65;
run a.alf | 63 => 0 returned -1;turns 2;cost 1;


check a.alf r --inputs i.toml
a.alf subject $0
i.toml ranges $0
r report $0 | $1 | $2 | $3 | $4

// numbers of a report
ten turns, form 1 | cert;step 0; | cert;merge 0 0; => 4 no event 0;
ten turns, form 1 | cert;step 0; | cert;step 4294967295; => 4 no event 0;
ten turns, form 1 | scale 1; | scale 0; => 2 fault 60 syntax 42 7;
ten turns, form 1 | mul 0;mul 0;mul 1; | mul 0;mul 0;mul 170141183460469231731687303715884105728; => 2 fault 61 number 52 5;
ten turns, form 1 | mul 0;mul 0;mul 1; | mul 0;mul 0;mul 170141183460469231731687303715884105727; => 4 no wide 11;
ten turns, form 1 | cert;step 0; | cert;step 0;step 0; => 4 no event 24;
ten turns, form 1 | loop 1 11 11; | loop 1 0 4294967295; => 0 accepted;
ten turns, form 1 | loop 1 11 11; | loop 1 0 4294967296; => 2 fault 61 number 9 10;
ten turns, form 1 | count-bound 23; | count-bound 18446744073709551615; => 0 accepted;
ten turns, form 1 | count-bound 23; | count-bound 18446744073709551616; => 2 fault 61 number 15 13;


run a.alf --inputs i.toml --costs c.toml
a.alf alf - | i n | i=0 @H { switch { s_lt 32 *i *n } { target '1 @B } { default @E } } @B i=i+1 ^H @E .
i.toml text [[input]];frame="n";offset=0;size=32;low=0;high=$0
c.toml text default=$1

// numbers of inputs and of costs
10 | 4294967295 => 0 returned;turns 4;cost 12884901885;
10 | 4294967296 => 2 fault 71 key costs -;"#;

#[test]
fn a_number_is_told_where_it_passes_its_limit(rt: HostRuntime) -> Result<(), Fail> {
    hold(rt.alloc(), NUMBERS)
}

// How many bytes a file has, and words. It is cut before each of its bytes: what is left is refused, unless it is
// whole.
const PROGRAM_CUTS: &str = r#"each $0
$1
a.alf cut ~ alf - | - | .
=> 2 fault 10 syntax 1 .. or 2 fault 12 profile 1 ..

280 | analyse a.alf
280 | run a.alf"#;

#[test]
fn a_program_that_is_cut_is_refused(rt: HostRuntime) -> Result<(), Fail> {
    hold(rt.alloc(), PROGRAM_CUTS)
}

const UNIT_CUTS: &str = r#"each $0
$1
a.c cut ~ raw int n; int main(void) { int i = 0; while (i < n) i = i + 1; return i; }
=> 2 fault 90 syntax 1 .. or 2 fault 92 profile 1 .. or 2 fault 98 root "main"; or 0 ; or 0 int n ;;

71 | print a.c
71 | analyse a.c
71 | run a.c
71 | lower a.c"#;

#[test]
fn a_unit_of_c_that_is_cut_is_refused_or_whole(rt: HostRuntime) -> Result<(), Fail> {
    hold(rt.alloc(), UNIT_CUTS)
}

const TABLE_CUTS: &str = r#"each $0
$1
a.alf alf - | i n | i=0 @H { switch { s_lt 32 *i *n } { target '1 @B } { default @E } } @B i=i+1 ^H @E .
i.toml cut ~ text [[input]];frame="n";offset=0;size=32;low=0;high=10
r text facts 2;
=> 2 fault 70 toml inputs; or 2 fault 71 key inputs -; or 2 fault 71 key inputs 0; or $2

// inputs
50 | run a.alf --inputs i.toml | 0 stopped uninit "main":1;turns 3;cost 2; or 0 returned;turns 4;cost 3;
50 | analyse a.alf --inputs i.toml | 0 facts 2;..;end;
50 | worst a.alf --inputs i.toml | 0 box ..;worst ..;
50 | cache a.alf --sets 1 --ways 1 --line 4 --penalty 1 --inputs i.toml | 0 ..cache-bound ..;
50 | check a.alf r --inputs i.toml | 2 fault 60 syntax 2 1;


each $0
$1
a.alf alf - | i n | i=0 @H { switch { s_lt 32 *i *n } { target '1 @B } { default @E } } @B i=i+1 ^H @E .
i.toml text [[input]];frame="n";offset=0;size=32;low=0;high=10
c.toml cut ~ text default=2;[[cost]];function="main";block=2;cost=5
=> 2 fault 70 toml costs; or 2 fault 71 key costs -; or 2 fault 71 key costs 0; or $2

// costs
49 | run a.alf --inputs i.toml --costs c.toml | 0 returned;turns 4;cost 3; or 0 returned;turns 4;cost 6;
49 | analyse a.alf --inputs i.toml --costs c.toml | 0 facts 2;..;end;


each $0
replay a.alf r --inputs i.toml --at v.toml
a.alf subject $1
i.toml ranges $1
r report $1
v.toml cut ~ text values=[2]
=> 2 fault 70 toml values; or 2 fault 71 key values -;

// values
10 | a division


each $0
tasks t.toml
t.toml cut ~ text task=[{name="a",cost=1,period=4,deadline=4,priority=1}]
=> 2 fault 70 toml tasks; or 0 

// tasks
55"#;

#[test]
fn a_table_that_is_cut_is_refused_or_whole(rt: HostRuntime) -> Result<(), Fail> {
    hold(rt.alloc(), TABLE_CUTS)
}

const REPORT_CUTS: &str = r#"each $0
$2 --inputs i.toml
a.alf subject $1
i.toml ranges $1
r cut ~ report $1
=> 2 fault 60 syntax ..
--
each $0
migrate r
r cut ~ report $1
=> 2 fault 60 syntax ..

208 | a division | check a.alf r
208 | a division | replay a.alf r"#;

#[test]
fn a_report_that_is_cut_is_refused(rt: HostRuntime) -> Result<(), Fail> {
    hold(rt.alloc(), REPORT_CUTS)
}

// How many lines a report has, which is cut after each of them but the last, and before the first; its name, and
// words.
const LINE_CUTS: &str = r#"each $0
$2
a.alf subject $1
i.toml ranges $1
r lines ~ report $1
=> 2 fault 60 syntax ~+ 1;

60 | ten turns, form 1 | check a.alf r --inputs i.toml
60 | ten turns, form 1 | replay a.alf r --inputs i.toml
60 | ten turns, form 1 | migrate r"#;

#[test]
fn a_report_that_is_cut_departs_where_its_next_line_would_begin(
    rt: HostRuntime,
) -> Result<(), Fail> {
    hold(rt.alloc(), LINE_CUTS)
}

// How many bytes a file has, and words. In place of each of its bytes there is one that no text has.
const PROGRAM_BYTES: &str = r#"each $0
$1
a.alf spoilt ~ alf - | - | .
=> 2 fault 10 syntax 1 .. or 2 fault 12 profile 1 ..

280 | print a.alf
280 | run a.alf"#;

#[test]
fn a_program_with_a_byte_that_no_text_has_is_refused(rt: HostRuntime) -> Result<(), Fail> {
    hold(rt.alloc(), PROGRAM_BYTES)
}

const UNIT_BYTES: &str = r#"each $0
$1
a.c spoilt ~ raw int n; int main(void) { int i = 0; while (i < n) i = i + 1; return i; }
=> 2 fault 90 syntax 1 .. or 2 fault 92 profile 1 ..

71 | print a.c
71 | analyse a.c
71 | run a.c
71 | lower a.c"#;

#[test]
fn a_unit_of_c_with_a_byte_that_no_text_has_is_refused(rt: HostRuntime) -> Result<(), Fail> {
    hold(rt.alloc(), UNIT_BYTES)
}

const TABLE_BYTES: &str = r#"each $0
$1
a.alf alf - | i n | i=0 @H { switch { s_lt 32 *i *n } { target '1 @B } { default @E } } @B i=i+1 ^H @E .
i.toml spoilt ~ text [[input]];frame="n";offset=0;size=32;low=0;high=10
r text facts 2;
=> 2 fault 70 toml inputs;

// inputs
50 | run a.alf --inputs i.toml
50 | analyse a.alf --inputs i.toml
50 | worst a.alf --inputs i.toml
50 | cache a.alf --sets 1 --ways 1 --line 4 --penalty 1 --inputs i.toml
50 | check a.alf r --inputs i.toml


each $0
$1
a.alf alf - | i n | i=0 @H { switch { s_lt 32 *i *n } { target '1 @B } { default @E } } @B i=i+1 ^H @E .
i.toml text [[input]];frame="n";offset=0;size=32;low=0;high=10
c.toml spoilt ~ text default=2;[[cost]];function="main";block=2;cost=5
=> 2 fault 70 toml costs;

// costs
49 | run a.alf --inputs i.toml --costs c.toml
49 | analyse a.alf --inputs i.toml --costs c.toml


each $0
replay a.alf r --inputs i.toml --at v.toml
a.alf subject $1
i.toml ranges $1
r report $1
v.toml spoilt ~ text values=[2]
=> 2 fault 70 toml values;

// values
10 | a division


each $0
tasks t.toml
t.toml spoilt ~ text task=[{name="a",cost=1,period=4,deadline=4,priority=1}]
=> 2 fault 70 toml tasks;

// tasks
55"#;

#[test]
fn a_table_with_a_byte_that_no_text_has_is_refused(rt: HostRuntime) -> Result<(), Fail> {
    hold(rt.alloc(), TABLE_BYTES)
}

const REPORT_BYTES: &str = r#"each $0
$2 --inputs i.toml
a.alf subject $1
i.toml ranges $1
r spoilt ~ report $1
=> 2 fault 60 syntax ..
--
each $0
migrate r
r spoilt ~ report $1
=> 2 fault 60 syntax ..

208 | a division | check a.alf r
208 | a division | replay a.alf r"#;

#[test]
fn a_report_with_a_byte_that_no_text_has_is_refused(rt: HostRuntime) -> Result<(), Fail> {
    hold(rt.alloc(), REPORT_BYTES)
}
