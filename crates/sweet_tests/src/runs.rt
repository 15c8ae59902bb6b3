//! Runs of small programs, as `run` tells them.

use crate::tables::hold;
use std::test::Fail;

// Programs: exports, global frames and functions, and perhaps options, inputs and costs.
const RUNS: &str = r#"run a.alf $3
a.alf alf $0 | $1 | $2
i.toml text $4
c.toml text $5

// how they end
- | - | . => 0 returned;turns 2;cost 1;
- | - | . | --turns 2 => 0 returned;turns 2;cost 1;
- | - | . | --turns 1 => 3 unbounded 0 "main":entry;
r | r | { call @f #4 result &r } { call @f *r result &r } { return *r } /f:x { return { add 32 *x #1 '0 } } => 0 returned 6;global "r" 6;turns 8;cost 5;
- | i | i=0 @H ?i:10>E:B @B i=i+1 ^H @E . | --turns 24 => 0 returned;turns 24;cost 23;
- | i | i=0 @H ?i:10>E:B @B i=i+1 ^H @E . | --turns 23 => 3 unbounded 0 "main":entry;
- | - | /main::i i=0 @H { switch { s_lt 32 *i #10 } { target '1 @B } { default @E } } @B i=i+1 ^H @E { return *i } => 0 returned 10;turns 24;cost 23;
- | - | @A ^A | --turns 1 => 3 unbounded 1 "main":0;
- | - | { call @f result } . /f @A ^A => 3 unbounded 2 "main".0"f":0;
- | - | . /f @A ^A | --root f => 3 unbounded 1 "f":0;
- | i | i=0 @H ?i:10>E:B @B i=i+1 ^H @E . | --turns 10 => 3 unbounded 1 "main":1;
- | - | @A ^A | --turns 5 => 3 unbounded 1 "main":0;
- | - | @A { call @f result } ^A /f . | --turns 2 => 3 unbounded 2 "main".0"f":entry;
- | - | { call @f result } @A ^A /f . | --turns 2 => 3 unbounded 2 "main".0"f":entry;
- | - | { call @f result } @A ^A /f . | --turns 4 => 3 unbounded 1 "main":1;
- | - | . /f { return #7 } | --root f --turns 1 => 3 unbounded 0 "f":entry;
- | - | { return #1 } /f { return #2 } => 0 returned 1;turns 2;cost 1;
- | - | { return #1 } /f { return #2 } | --root f => 0 returned 2;turns 2;cost 1;
- | - | { return #1 } /f { return #2 } | --root=main => 0 returned 1;turns 2;cost 1;
- | - | { call @f result } . /f { call @g result } . /g . => 0 returned;turns 8;cost 5;
- | r | { call @f result } . . /f r=1 @B { call @g result } ^E @D { null } @E . /g . => 0 returned;turns 10;cost 7;
// faults
- | i | { switch *i { default @E } } @E . => 0 stopped uninit "main":0;turns 2;cost 1;
- | i | { switch *i { default @E } } @E . | --turns 1 => 3 unbounded 0 "main":entry;
- | w | { store &w with { dec_unsigned 8 5 } } { return *w } => 0 stopped uninit "main":0;turns 2;cost 1;
- | p | { store &p with &p } { return { load 8 &p } } => 0 stopped mixed "main":0;turns 2;cost 1;
- | r | { null } @B { return *r } => 0 stopped uninit "main":1;turns 3;cost 2;
- | r | { return { u_div 32 32 #1 #0 } } => 0 stopped divide "main":0;turns 2;cost 1;
- | r | { store { add 32 &r #1 '0 } with #1 } . => 0 stopped bounds "main":0;turns 2;cost 1;
- | r | { return { load 64 &r } } => 0 stopped bounds "main":0;turns 2;cost 1;
- | r | { call @f result &r } { store *r with #1 } . /f::own { return &own } => 0 stopped dead "main":1;turns 5;cost 3;
- | r | { store #5 with #1 } . => 0 stopped kind "main":0;turns 2;cost 1;
- | r | { switch &r { default @E } } @E . => 0 stopped kind "main":0;turns 2;cost 1;
- | r x | { return { u_lt 32 &r &x } } => 0 stopped pointers "main":0;turns 2;cost 1;
- | r | { call @f result } . /f { return { u_div 32 32 #1 #0 } } => 2 fault 22 size "f" 0;
- | r | { call @f result &r } . /f { return { u_div 32 32 #1 #0 } } => 0 stopped divide "main".0"f":0;turns 4;cost 2;
- | r | { call @f result &r } . /f { null } @B { call @g result &r } { return *r } /g { null } @B { return *r } => 0 stopped uninit "main".0"f".1"g":1;turns 8;cost 5;
- | r%16 | { call @f result &r } . /f { return #1 } => 0 stopped bounds "main".0"f":0;turns 4;cost 2;
- | r | { call @f *r result } . /f:x . => 0 stopped uninit "main":0;turns 2;cost 1;
r | r=1 | { return { u_mod 32 32 *r #0 } } => 0 stopped divide "main":0;turns 2;cost 1;
// values
- | - | { return '0 } => 0 returned 0;turns 2;cost 1;
- | - | { return '1 } => 0 returned -1;turns 2;cost 1;
- | - | { return { eq 32 #7 #7 } } => 0 returned -1;turns 2;cost 1;
- | - | { return { dec_unsigned 8 127 } } => 0 returned 127;turns 2;cost 1;
- | - | { return { dec_unsigned 8 128 } } => 0 returned -128;turns 2;cost 1;
- | - | { return { dec_signed 8 { minus 128 } } } => 0 returned -128;turns 2;cost 1;
- | - | { return { dec_unsigned 13 4095 } } => 0 returned 4095;turns 2;cost 1;
- | - | { return { dec_unsigned 13 4096 } } => 0 returned -4096;turns 2;cost 1;
- | - | { return { dec_signed 7 { minus 64 } } } => 0 returned -64;turns 2;cost 1;
- | - | { return { dec_unsigned 16 32768 } } => 0 returned -32768;turns 2;cost 1;
- | - | { return #2147483647 } => 0 returned 2147483647;turns 2;cost 1;
- | - | { return #2147483648 } => 0 returned -2147483648;turns 2;cost 1;
- | - | { return #4294967295 } => 0 returned -1;turns 2;cost 1;
- | - | { return { dec_unsigned 63 4611686018427387904 } } => 0 returned -4611686018427387904;turns 2;cost 1;
- | - | { return { dec_unsigned 64 9223372036854775807 } } => 0 returned 9223372036854775807;turns 2;cost 1;
- | - | { return { dec_unsigned 64 9223372036854775808 } } => 0 returned -9223372036854775808;turns 2;cost 1;
- | - | { return { dec_unsigned 64 18446744073709551615 } } => 0 returned -1;turns 2;cost 1;
- | x | { return &x } => 0 returned "x"+0;turns 2;cost 1;
- | x | { return { add 32 &x #4294967295 '0 } } => 0 returned "x"+4294967295;turns 2;cost 1;
- | x | { return { addr 32 { fref 32 "x" } { dec_unsigned 32 4294967295 } } } => 0 returned "x"+4294967295;turns 2;cost 1;
- | x | { return { sub 32 &x #1 '1 } } => 0 returned "x"+4294967295;turns 2;cost 1;
- | - | /main::own { return &own } => 0 returned "own"+0;turns 2;cost 1;
r | r | . => 0 returned;global "r" -;turns 2;cost 1;
r | r | { store &r with { dec_unsigned 8 5 } } . => 0 returned;global "r" -;turns 2;cost 1;
r | r=258 | { store &r with { dec_unsigned 8 7 } } . => 0 returned;global "r" 263;turns 2;cost 1;
r | r x | { store &r with { add 32 &x #2 '0 } } . => 0 returned;global "r" "x"+2;turns 2;cost 1;
r | r | { store &r with &r } { store &r with { dec_unsigned 8 5 } } . => 0 returned;global "r" -;turns 2;cost 1;
d | d%64 | { store &d with &d } { store { add 32 &d #4 '0 } with &d } . => 0 returned;global "d" -;turns 2;cost 1;
r | r | { call @f result &r } . /f::own { return &own } => 0 returned;global "r" "own"+0;turns 5;cost 3;
b h w d | b%8=255 h%16=32768 w=4294967295 d%64=9223372036854775807 | . => 0 returned;global "b" -1;global "h" -32768;global "w" -1;global "d" 9223372036854775807;turns 2;cost 1;
w b w | b%8=1 w=2 | . => 0 returned;global "w" 2;global "b" 1;global "w" 2;turns 2;cost 1;
y x y | x y%16 | { store &y with { dec_unsigned 16 65535 } } { store &x with &y } . => 0 returned;global "y" -1;global "x" "y"+0;global "y" -1;turns 2;cost 1;
w @main | w=2 | w=3 { return *w } => 0 returned 3;global "w" 3;turns 2;cost 1;
// inputs and costs
- | i n | i=0 @H { switch { s_lt 32 *i *n } { target '1 @B } { default @E } } @B i=i+1 ^H @E . | --inputs i.toml | [[input]];frame="n";offset=0;size=32;low=0;high=10 => 0 returned;turns 4;cost 3;
- | i n | i=0 @H { switch { s_lt 32 *i *n } { target '1 @B } { default @E } } @B i=i+1 ^H @E . | --inputs i.toml --costs c.toml | [[input]];frame="n";offset=0;size=32;low=10;high=10 | default=2;[[cost]];function="main";block=2;cost=5 => 0 returned;turns 24;cost 76;
n | i n | i=0 @H { switch { s_lt 32 *i *n } { target '1 @B } { default @E } } @B i=i+1 ^H @E . | --inputs i.toml --turns 23 | [[input]];frame="n";offset=0;size=32;low=10;high=10 => 3 unbounded 0 "main":entry;
n | i n | i=0 @H { switch { s_lt 32 *i *n } { target '1 @B } { default @E } } @B i=i+1 ^H @E . | --inputs i.toml | [[input]];frame="n";offset=0;size=32;low=-5;high=10 => 0 returned;global "n" -5;turns 4;cost 3;
n | i n | i=0 @H { switch { s_lt 32 *i *n } { target '1 @B } { default @E } } @B i=i+1 ^H @E . => 0 stopped uninit "main":1;turns 3;cost 2;
n | n=7 | . | --inputs i.toml | [[input]];frame="n";offset=0;size=32;low=-5;high=5 => 0 returned;global "n" -5;turns 2;cost 1;
n | n | . | --inputs i.toml | [[input]];frame="n";offset=0;size=32;low=4294967295;high=4294967295 => 0 returned;global "n" -1;turns 2;cost 1;
n | n | . | --inputs i.toml | [[input]];frame="n";offset=0;size=8;low=200;high=201;count=4 => 0 returned;global "n" -926365496;turns 2;cost 1;
n | n=7 | . | --inputs i.toml | [[input]];frame="n";offset=1;size=8;low=1;high=2 => 0 returned;global "n" 263;turns 2;cost 1;
n | n%64 | . | --inputs i.toml | [[input]];frame="n";offset=0;size=64;low=-9223372036854775808;high=0 => 0 returned;global "n" -9223372036854775808;turns 2;cost 1;
n m | n m | . | --inputs i.toml | [[input]];frame="m";offset=0;size=32;low=1;high=2;[[input]];frame="n";offset=0;size=32;low=3;high=4 => 0 returned;global "n" 3;global "m" 1;turns 2;cost 1;
n | n=7 | . | --inputs i.toml => 0 returned;global "n" 7;turns 2;cost 1;
- | - | /main:p { return *p } => 0 stopped uninit "main":0;turns 2;cost 1;
- | - | /main:p { return *p } | --inputs i.toml | [[input]];frame="p";offset=0;size=32;low=-2147483648;high=0 => 0 returned -2147483648;turns 2;cost 1;
- | - | /main:p { return *p } /f:q { return *q } | --inputs i.toml --root f | [[input]];frame="q";offset=0;size=32;low=9;high=9 => 0 returned 9;turns 2;cost 1;
d | d=0 | /main::x { store &x with { s_div 32 32 #100 *d } } { return *x } | --inputs i.toml | [[input]];frame="d";offset=0;size=32;low=0;high=0 => 0 stopped divide "main":0;turns 2;cost 1;
d | d=0 | /main::x { store &x with { s_div 32 32 #100 *d } } { return *x } | --inputs i.toml | [[input]];frame="d";offset=0;size=32;low=-2;high=2 => 0 returned -50;global "d" -2;turns 2;cost 1;
- | a%320 | /main::i,j,key i=1 @L0 { switch { s_lt 32 *i #10 } { target '1 @L1 } { default @L3 } } @L1 { store &key with { load 32 { add 32 &a { trunc 64 32 { s_mul 32 32 *i #4 } } '0 } } } { store &j with { sub 32 *i #1 '1 } } @L4 { switch { s_ge 32 *j #0 } { target '1 @L7 } { default @L6 } } @L7 { switch { s_gt 32 { load 32 { add 32 &a { trunc 64 32 { s_mul 32 32 *j #4 } } '0 } } *key } { target '1 @L5 } { default @L6 } } @L5 { store { add 32 &a { trunc 64 32 { s_mul 32 32 { add 32 *j #1 '0 } #4 } } '0 } with { load 32 { add 32 &a { trunc 64 32 { s_mul 32 32 *j #4 } } '0 } } } { store &j with { sub 32 *j #1 '1 } } ^L4 @L6 { store { add 32 &a { trunc 64 32 { s_mul 32 32 { add 32 *j #1 '0 } #4 } } '0 } with *key } @L2 i=i+1 ^L0 @L3 { return { load 32 &a } } | --inputs i.toml | [[input]];frame="a";offset=0;size=32;low=10;high=10;[[input]];frame="a";offset=4;size=32;low=9;high=9;[[input]];frame="a";offset=8;size=32;low=8;high=8;[[input]];frame="a";offset=12;size=32;low=7;high=7;[[input]];frame="a";offset=16;size=32;low=6;high=6;[[input]];frame="a";offset=20;size=32;low=5;high=5;[[input]];frame="a";offset=24;size=32;low=4;high=4;[[input]];frame="a";offset=28;size=32;low=3;high=3;[[input]];frame="a";offset=32;size=32;low=2;high=2;[[input]];frame="a";offset=36;size=32;low=1;high=1 => 0 returned 1;turns 184;cost 183;
- | a%320 | /main::i,j,key i=1 @L0 { switch { s_lt 32 *i #10 } { target '1 @L1 } { default @L3 } } @L1 { store &key with { load 32 { add 32 &a { trunc 64 32 { s_mul 32 32 *i #4 } } '0 } } } { store &j with { sub 32 *i #1 '1 } } @L4 { switch { s_ge 32 *j #0 } { target '1 @L7 } { default @L6 } } @L7 { switch { s_gt 32 { load 32 { add 32 &a { trunc 64 32 { s_mul 32 32 *j #4 } } '0 } } *key } { target '1 @L5 } { default @L6 } } @L5 { store { add 32 &a { trunc 64 32 { s_mul 32 32 { add 32 *j #1 '0 } #4 } } '0 } with { load 32 { add 32 &a { trunc 64 32 { s_mul 32 32 *j #4 } } '0 } } } { store &j with { sub 32 *j #1 '1 } } ^L4 @L6 { store { add 32 &a { trunc 64 32 { s_mul 32 32 { add 32 *j #1 '0 } #4 } } '0 } with *key } @L2 i=i+1 ^L0 @L3 { return { load 32 &a } } | --inputs i.toml | [[input]];frame="a";offset=0;size=32;count=10;low=-100;high=100 => 0 returned -100;turns 58;cost 57;
k | a%128 k=0 | { store { add 32 &a { trunc 64 32 { s_mul 32 32 *k #4 } } '0 } with #7 } { switch { s_gt 32 { load 32 { add 32 &a #8 '0 } } #5 } { target '1 @A } { default @B } } @A { return #1 } ^B @B { return #0 } | --inputs i.toml | [[input]];frame="a";offset=0;size=32;low=0;high=0;count=4;[[input]];frame="k";offset=0;size=32;low=0;high=3 => 0 returned 0;global "k" 0;turns 3;cost 2;
k | a%128 k=0 | { store { add 32 &a { trunc 64 32 { s_mul 32 32 *k #4 } } '0 } with #7 } { switch { s_gt 32 { load 32 { add 32 &a #8 '0 } } #5 } { target '1 @A } { default @B } } @A { return #1 } ^B @B { return #0 } | --inputs i.toml | [[input]];frame="a";offset=0;size=32;low=0;high=0;count=4;[[input]];frame="k";offset=0;size=32;low=2;high=3 => 0 returned 1;global "k" 2;turns 3;cost 2;
c | c=0 a%64 b%128 | /main::p { switch { neq 32 *c #0 } { target '1 @A } { default @B } } @A { store &p with &a } ^C @B { store &p with &b } @C { store { add 32 *p #8 '0 } with #1 } { return { load 32 { add 32 &b #8 '0 } } } | --inputs i.toml | [[input]];frame="c";offset=0;size=32;low=0;high=1 => 0 returned 1;global "c" 0;turns 4;cost 3;
c | c=0 a%64 b%128 | /main::p { switch { neq 32 *c #0 } { target '1 @A } { default @B } } @A { store &p with &a } ^C @B { store &p with &b } @C { store { add 32 *p #8 '0 } with #1 } { return { load 32 { add 32 &b #8 '0 } } } | --inputs i.toml | [[input]];frame="c";offset=0;size=32;low=1;high=1 => 0 stopped bounds "main":3;turns 4;cost 3;
x | x=0 | ?x:3>A:B @A { return #1 } @B { return #2 } | --inputs i.toml | [[input]];frame="x";offset=0;size=32;low=3;high=3 => 0 returned 1;global "x" 3;turns 3;cost 2;
- | r | { call @f #4 result &r } { call @f *r result &r } { return *r } /f:x { return { add 32 *x #1 '0 } } | --costs c.toml | - | [[cost]];function="f";block=0;cost=10 => 0 returned 6;turns 8;cost 23;
- | r | { call @f #4 result &r } { call @f *r result &r } { return *r } /f:x { return { add 32 *x #1 '0 } } | --costs c.toml | - | default=0 => 0 returned 6;turns 8;cost 0;
- | r | { call @f #4 result &r } { call @f *r result &r } { return *r } /f:x { return { add 32 *x #1 '0 } } | --costs c.toml => 0 returned 6;turns 8;cost 5;
- | i | i=0 @H ?i:10>E:B @B i=i+1 ^H @E . | --costs c.toml | - | default=4294967295 => 0 returned;turns 24;cost 98784247785;
- | i | { null } @B i=i+1 . | --costs c.toml | - | [[cost]];function="main";block=1;cost=7;[[cost]];function="main";block=0;cost=3 => 0 stopped uninit "main":1;turns 3;cost 10;"#;

#[test]
fn each_run_is_told(rt: HostRuntime) -> Result<(), Fail> {
    hold(rt.alloc(), RUNS)
}

// Runs of so many nodes as there may be without an option, and of one more.
const LONG: &str = r#"run a.alf $3
a.alf alf $0 | $1 | $2
i.toml text $4
c.toml text $5

- | i | i=0 @H ?i:49998>E:B @B i=i+1 ^H @E . => 0 returned;turns 100000;cost 99999;
- | i | i=0 { null } @G i=0 @H ?i:49998>E:B @B i=i+1 ^H @E . => 3 unbounded 0 "main":entry;"#;

#[test]
fn a_run_has_100000_nodes_without_an_option(rt: HostRuntime) -> Result<(), Fail> {
    hold(rt.alloc(), LONG)
}

// Runs of so many nodes as there may be.
const LONGER: &str = r#"run a.alf $3
a.alf alf $0 | $1 | $2
i.toml text $4
c.toml text $5

- | i | i=0 @H ?i:249999>E:B @B i=i+1 ^C @C { null } ^D @D ^H @E . | --turns 1000000 => 0 returned;turns 1000000;cost 999999;"#;

#[test]
fn a_run_may_have_a_million_nodes(rt: HostRuntime) -> Result<(), Fail> {
    hold(rt.alloc(), LONGER)
}

// Runs of more.
const LONGEST: &str = r#"run a.alf $3
a.alf alf $0 | $1 | $2
i.toml text $4
c.toml text $5

- | i | i=0 @H ?i:249999>E:B @B i=i+1 ^C @C { null } ^D @D ^H @E . | --turns 999999 => 3 unbounded 0 "main":entry;
- | - | @A ^A | --turns 1000000 => 3 unbounded 1 "main":0;"#;

#[test]
fn a_run_of_more_nodes_is_unbounded(rt: HostRuntime) -> Result<(), Fail> {
    hold(rt.alloc(), LONGEST)
}
