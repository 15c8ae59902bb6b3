//! Programs, runs and explorations of some size: each is answered, and none is want of memory.

use crate::tables::hold;
use std::test::Fail;

// Frames of 32, 33, 256 and 257 bytes: their bits, and where their last word begins, which is the bound of a loop.
const FRAMES: &str = r#"analyse a.alf
a.alf alf - | a%$0 i | { store { add 32 &a #$1 '0 } with #3 } i=0 @H { switch { s_lt 32 *i { load 32 { add 32 &a #$1 '0 } } } { target '1 @B } { default @E } } @B i=i+1 ^H @E .
=> 0 facts 2;node 0 0 0 "main":entry;node 1 0 1 "main":0;node 2 1 1 "main":1;node 3 1 1 "main":2;node 4 0 1 "main":3;scope 0 - 0 call;scope 1 0 2 loop;loop 1 4 4;count 1 3 3 3;total 0 1 1;total 1 1 1;total 2 4 4;total 3 3 3;total 4 1 1;count-bound 9;path-bound 9 least;end;

256 | 28
264 | 29
2048 | 252
2056 | 253"#;

#[test]
fn a_frame_of_any_form_keeps_its_last_word(rt: HostRuntime) -> Result<(), Fail> {
    hold(rt.alloc(), FRAMES)
}

// Pieces of a program, options, and inputs.
const NESTED: &str = r#"analyse a.alf $1
a.alf alfs $0
i.toml text $2

// eight calls within one another, of functions of two blocks, but for the last
8 { call @f~ result } . /f~ & 1 . => 0 ..;scope 8 7 24 call;total 0 1 1;..;count-bound 17;path-bound 17 least;end;
// eight loops within one another, of one turn each
1 /main::a,b,c,d,e,f,g,h a=0 @0 ?a:1>z:A @A b=0 @1 ?b:1>y:B @B c=0 @2 ?c:1>x:C @C d=0 @3 ?d:1>w:D @D e=0 @4 ?e:1>v:E @E f=0 @5 ?f:1>u:F @F g=0 @6 ?g:1>t:G @G h=0 @7 ?h:1>s:H @H h=h+1 ^7 @s g=g+1 ^6 @t f=f+1 ^5 @u e=e+1 ^4 @v d=d+1 ^3 @w c=c+1 ^2 @x b=b+1 ^1 @y a=a+1 ^0 @z . => 0 ..;loop 8 2 2;..;count-bound 33;path-bound 33 least;end;"#;

#[test]
fn calls_and_loops_may_stand_eight_deep(rt: HostRuntime) -> Result<(), Fail> {
    hold(rt.alloc(), NESTED)
}

// A loop of 300 turns over 27 of 30 nodes, and nodes in a row.
const LONG: &str = r#"analyse a.alf
a.alf alfs $0

1 /main::i i=0 @H ?i:300>E:B @B i=i+1 & 25 @C~ { null } & 1 ^H @E . => 0 ..;loop 1 301 301;..;count-bound 8103;path-bound 8103 least;end;
70 @C~ { null } & 1 . => 0 ..;total 70 1 1;count-bound 70;path-bound 70 least;end;
210 @C~ { null } & 1 . => 0 ..;total 210 1 1;count-bound 210;path-bound 210 least;end;"#;

#[test]
fn paths_and_loops_may_be_long(rt: HostRuntime) -> Result<(), Fail> {
    hold(rt.alloc(), LONG)
}

// Ten tests in a row of which each may go both ways, and nothing is joined: 1,024 places at the end.
const WAYS: &str = r#"analyse a.alf --merge none --inputs i.toml
a.alf alfs $0
i.toml text [[input]];frame="a";offset=0;size=32;count=11;low=0;high=1

1 /main:a%352 & 10 @T~ { switch { load 32 { add 32 &a { trunc 64 32 { s_mul 32 32 #~ #4 } } '0 } } { target #1 @A~ } { default @T~+ } } @A~ { null } & 1 @T~ . => 0 ..;count-bound 21;path-bound 21 least;end;"#;

#[test]
fn a_pool_may_have_1024_places(rt: HostRuntime) -> Result<(), Fail> {
    hold(rt.alloc(), WAYS)
}

// A run of 2,002 nodes against a report by hand: how often its loop is said to turn.
const RUNS: &str = r#"replay a.alf r
a.alf alf - | i | i=0 @H ?i:999>E:B @B i=i+1 ^H @E .
r text facts 2;node 0 0 0 "main":entry;node 1 0 1 "main":0;node 2 1 1 "main":1;node 3 1 1 "main":2;node 4 0 1 "main":3;scope 0 - 0 call;scope 1 0 2 loop;loop 1 $0;count 1 3 999 999;total 0 1 1;total 1 1 1;total 2 1000 1000;total 3 999 999;total 4 1 1;count-bound 2001;path-bound 2001 least;end;

1000 1000 => 0 holds cost 2001;
1 2000 => 0 holds cost 2001;
999 999 => 4 no fact 9;"#;

#[test]
fn a_run_of_2002_nodes_is_held_against_its_report(rt: HostRuntime) -> Result<(), Fail> {
    hold(rt.alloc(), RUNS)
}
