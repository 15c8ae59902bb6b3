//! Runs of small programs without inputs, as the report of `analyse` tells them.

use crate::tables::hold;
use std::test::Fail;

// Programs: exports, global frames, functions, perhaps options and a costs file. A program without inputs has one
// run, so that nothing is merged.
const REPORTS: &str = r#"analyse a.alf $3
a.alf alf $0 | $1 | $2
c.toml text $4
--
analyse a.alf --merge=none $3
a.alf alf $0 | $1 | $2
c.toml text $4
--
analyse a.alf --merge=exits $3
a.alf alf $0 | $1 | $2
c.toml text $4
--
analyse a.alf --merge=joins $3
a.alf alf $0 | $1 | $2
c.toml text $4

// blocks
- | - | . | --turns 2 => 0 facts 2;node 0 0 0 "main":entry;node 1 0 1 "main":0;scope 0 - 0 call;total 0 1 1;total 1 1 1;count-bound 1;path-bound 1 least;end;
- | - | . | --turns 1 => 3 unbounded 0 "main":entry;
- | - | { null } . { null } . | --turns 2 => 0 facts 2;node 0 0 0 "main":entry;node 1 0 1 "main":0;scope 0 - 0 call;total 0 1 1;total 1 1 1;count-bound 1;path-bound 1 least;end;
- | - | ^A { null } @B { null } ^B @A . | --turns 3 => 0 facts 2;node 0 0 0 "main":entry;node 1 0 1 "main":0;node 2 0 1 "main":3;scope 0 - 0 call;total 0 1 1;total 1 1 1;total 2 1 1;count-bound 2;path-bound 2 least;end;
- | - | ^A { null } @B { null } ^B @A . | --turns 2 => 3 unbounded 0 "main":entry;
- | - | ^B @A @B @C . | --turns 3 => 0 facts 2;node 0 0 0 "main":entry;node 1 0 1 "main":0;node 2 0 1 "main":1;scope 0 - 0 call;total 0 1 1;total 1 1 1;total 2 1 1;count-bound 2;path-bound 2 least;end;
- | - | @A @B . | --turns 2 => 0 facts 2;node 0 0 0 "main":entry;node 1 0 1 "main":0;scope 0 - 0 call;total 0 1 1;total 1 1 1;count-bound 1;path-bound 1 least;end;
- | - | { null } @A . | --turns 3 => 0 facts 2;node 0 0 0 "main":entry;node 1 0 1 "main":0;node 2 0 1 "main":1;scope 0 - 0 call;total 0 1 1;total 1 1 1;total 2 1 1;count-bound 2;path-bound 2 least;end;
- | - | ^B @A ^C @B ^A @C . | --turns 5 => 0 facts 2;node 0 0 0 "main":entry;node 1 0 1 "main":0;node 2 0 1 "main":1;node 3 0 1 "main":2;node 4 0 1 "main":3;scope 0 - 0 call;total 0 1 1;total 1 1 1;total 2 1 1;total 3 1 1;total 4 1 1;count-bound 4;path-bound 4 least;end;
- | - | { null } ^A @B . @A { null } ^B | --turns 4 => 0 facts 2;node 0 0 0 "main":entry;node 1 0 1 "main":0;node 2 0 1 "main":1;node 3 0 1 "main":2;scope 0 - 0 call;total 0 1 1;total 1 1 1;total 2 1 1;total 3 1 1;count-bound 3;path-bound 3 least;end;
- | - | @A ^A | --turns 1000 => 3 unbounded 1 "main":0;
- | - | @A { null } @B ^A | --turns 1000 => 3 unbounded 1 "main":0;
// loops
- | i | i=0 @H ?i:10>E:B @B i=i+1 ^H @E . | --turns 10 => 3 unbounded 1 "main":1;
- | - | @A ^A | --turns 5 => 3 unbounded 1 "main":0;
- | - | @A ^A | --turns 1 => 3 unbounded 1 "main":0;
- | i j | i=0 @H { switch { s_lt 32 *i #10 } { target '1 @B } { default @E } } @B j=0 @G { switch { s_lt 32 *j *i } { target '1 @C } { default @F } } @C { null } @D j=j+1 ^G @F i=i+1 ^H @E . => 0 facts 2;node 0 0 0 "main":entry;node 1 0 1 "main":0;node 2 1 1 "main":1;node 3 1 1 "main":2;node 4 2 1 "main":3;node 5 2 1 "main":4;node 6 2 1 "main":5;node 7 1 1 "main":6;node 8 0 1 "main":7;scope 0 - 0 call;scope 1 0 2 loop;scope 2 1 4 loop;loop 1 11 11;loop 2 1 10;count 1 3 10 10;count 1 7 10 10;count 2 5 0 9;count 2 6 0 9;total 0 1 1;total 1 1 1;total 2 11 11;total 3 10 10;total 4 55 55;total 5 45 45;total 6 45 45;total 7 10 10;total 8 1 1;count-bound 178;path-bound 178 least;end;
- | i j | i=0 @H { switch { s_lt 32 *i #10 } { target '1 @B } { default @E } } @B j=0 @G { switch { s_lt 32 *j *i } { target '1 @C } { default @F } } @C { null } @D j=j+1 ^G @F i=i+1 ^H @E . | --turns 7 => 3 unbounded 1 "main":1;
- | i j | i=0 @H { switch { s_lt 32 *i #10 } { target '1 @B } { default @E } } @B j=0 @G { switch { s_lt 32 *j *i } { target '1 @C } { default @F } } @C { null } @D j=j+1 ^G @F i=i+1 ^H @E . | --turns 9 => 3 unbounded 2 "main":3;
- | i | i=0 @H ?i:10>E:B @B i=i+1 ^H @E . | --turns 24 => 0 facts 2;node 0 0 0 "main":entry;node 1 0 1 "main":0;node 2 1 1 "main":1;node 3 1 1 "main":2;node 4 0 1 "main":3;scope 0 - 0 call;scope 1 0 2 loop;loop 1 11 11;count 1 3 10 10;total 0 1 1;total 1 1 1;total 2 11 11;total 3 10 10;total 4 1 1;count-bound 23;path-bound 23 least;end;
- | i | i=0 @H ?i:10>E:B @B i=i+1 ^H @E . | --turns 23 => 3 unbounded 0 "main":entry;
- | i | i=0 @H ?i:10>E:B @B { store &i with { sub 32 *i #1 '0 } } ^H @E . | --turns 1000 => 3 unbounded 1 "main":1;
- | i | i=0 @H ?i:10>E:B @B { store &i with { add 32 *i #1 '1 } } ^H @E . => 0 facts 2;node 0 0 0 "main":entry;node 1 0 1 "main":0;node 2 1 1 "main":1;node 3 1 1 "main":2;node 4 0 1 "main":3;scope 0 - 0 call;scope 1 0 2 loop;loop 1 6 6;count 1 3 5 5;total 0 1 1;total 1 1 1;total 2 6 6;total 3 5 5;total 4 1 1;count-bound 13;path-bound 13 least;end;
// faults: in a switch, in a store, in a sum, after a loop, and of each kind
- | i | ?i:E @E . | --turns 2 => 0 facts 2;node 0 0 0 "main":entry;node 1 0 1 "main":0;node 2 0 1 "main":1;scope 0 - 0 call;dead 2;total 0 1 1;total 1 1 1;alarm 1 uninit;count-bound 1;path-bound 1 least;end;
- | i | ?i:E @E . | --turns 1 => 3 unbounded 0 "main":entry;
- | x y | y=1 ?x:E @E . | --turns 2 => 0 facts 2;node 0 0 0 "main":entry;node 1 0 1 "main":0;node 2 0 1 "main":1;scope 0 - 0 call;dead 2;total 0 1 1;total 1 1 1;alarm 1 uninit;count-bound 1;path-bound 1 least;end;
- | x y | x=y ^E @E . | --turns 2 => 0 facts 2;node 0 0 0 "main":entry;node 1 0 1 "main":0;node 2 0 1 "main":1;scope 0 - 0 call;dead 2;total 0 1 1;total 1 1 1;alarm 1 uninit;count-bound 1;path-bound 1 least;end;
- | x | x=x+1 . | --turns 2 => 0 facts 2;node 0 0 0 "main":entry;node 1 0 1 "main":0;scope 0 - 0 call;total 0 1 1;total 1 1 1;alarm 1 uninit;count-bound 1;path-bound 1 least;end;
- | i j k | i=0 @H ?i:2>E:B @B i=i+1 ^H @E j=k . | --turns 9 => 0 facts 2;node 0 0 0 "main":entry;node 1 0 1 "main":0;node 2 1 1 "main":1;node 3 1 1 "main":2;node 4 0 1 "main":3;scope 0 - 0 call;scope 1 0 2 loop;loop 1 3 3;count 1 3 2 2;total 0 1 1;total 1 1 1;total 2 3 3;total 3 2 2;total 4 1 1;alarm 4 uninit;count-bound 7;path-bound 7 least;end;
- | i%16 | i=0 @H ?i:10>E:B @B i=i+1 ^H @E . => 0 facts 2;node 0 0 0 "main":entry;node 1 0 1 "main":0;node 2 1 1 "main":1;node 3 1 1 "main":2;node 4 0 1 "main":3;scope 0 - 0 call;scope 1 0 2 loop;dead 2;dead 3;dead 4;total 0 1 1;total 1 1 1;alarm 1 bounds;count-bound 1;path-bound 1 least;end;
- | i | { store { addr 32 { fref 32 "i" } { dec_unsigned 32 1 } } with #0 } . => 0 facts 2;node 0 0 0 "main":entry;node 1 0 1 "main":0;scope 0 - 0 call;total 0 1 1;total 1 1 1;alarm 1 bounds;count-bound 1;path-bound 1 least;end;
- | - | { return { s_mod 8 8 { dec_unsigned 8 1 } { dec_unsigned 8 0 } } } => 0 facts 2;node 0 0 0 "main":entry;node 1 0 1 "main":0;scope 0 - 0 call;total 0 1 1;total 1 1 1;alarm 1 divide;count-bound 1;path-bound 1 least;end;
- | p | { store &p with &p } { return { load 8 &p } } => 0 facts 2;node 0 0 0 "main":entry;node 1 0 1 "main":0;scope 0 - 0 call;total 0 1 1;total 1 1 1;alarm 1 mixed;count-bound 1;path-bound 1 least;end;
- | r | { store #5 with #1 } . => 0 facts 2;node 0 0 0 "main":entry;node 1 0 1 "main":0;scope 0 - 0 call;total 0 1 1;total 1 1 1;alarm 1 kind;count-bound 1;path-bound 1 least;end;
- | r x | { return { u_lt 32 &r &x } } => 0 facts 2;node 0 0 0 "main":entry;node 1 0 1 "main":0;scope 0 - 0 call;total 0 1 1;total 1 1 1;alarm 1 pointers;count-bound 1;path-bound 1 least;end;
- | r | { call @f result &r } { store *r with #1 } . /f::own { return &own } => 0 facts 2;node 0 0 0 "main":entry;node 1 0 1 "main":0;node 2 0 1 "main":1;node 3 1 0 "main".0"f":entry;node 4 1 1 "main".0"f":0;scope 0 - 0 call;scope 1 0 3 call;total 0 1 1;total 1 1 1;total 2 1 1;total 3 1 1;total 4 1 1;alarm 2 dead;count-bound 3;path-bound 3 least;end;
// a switch takes the target of its value, else the default
- | x | x=2 ?x:1>A:2>B:C @A . @B . @C . => 0 facts 2;node 0 0 0 "main":entry;node 1 0 1 "main":0;node 2 0 1 "main":1;node 3 0 1 "main":2;node 4 0 1 "main":3;scope 0 - 0 call;dead 2;dead 4;total 0 1 1;total 1 1 1;total 3 1 1;count-bound 2;path-bound 2 least;end;
- | x | x=2 ?x:2>B:1>A:C @A . @B . @C . => 0 facts 2;node 0 0 0 "main":entry;node 1 0 1 "main":0;node 2 0 1 "main":1;node 3 0 1 "main":2;node 4 0 1 "main":3;scope 0 - 0 call;dead 2;dead 4;total 0 1 1;total 1 1 1;total 3 1 1;count-bound 2;path-bound 2 least;end;
- | x | x=3 ?x:1>A:2>B:C @A . @B . @C . => 0 facts 2;node 0 0 0 "main":entry;node 1 0 1 "main":0;node 2 0 1 "main":1;node 3 0 1 "main":2;node 4 0 1 "main":3;scope 0 - 0 call;dead 2;dead 3;total 0 1 1;total 1 1 1;total 4 1 1;count-bound 2;path-bound 2 least;end;
- | x | x=0 ?x:A @A . => 0 facts 2;node 0 0 0 "main":entry;node 1 0 1 "main":0;node 2 0 1 "main":1;scope 0 - 0 call;total 0 1 1;total 1 1 1;total 2 1 1;count-bound 2;path-bound 2 least;end;
- | x | x=1 ?x:1>A:2>A:A @A . => 0 facts 2;node 0 0 0 "main":entry;node 1 0 1 "main":0;node 2 0 1 "main":1;scope 0 - 0 call;total 0 1 1;total 1 1 1;total 2 1 1;count-bound 2;path-bound 2 least;end;
- | x | x=0 ?x:0>A:B @A ^C @B ^C @C . => 0 facts 2;node 0 0 0 "main":entry;node 1 0 1 "main":0;node 2 0 1 "main":1;node 3 0 1 "main":2;node 4 0 1 "main":3;scope 0 - 0 call;dead 3;total 0 1 1;total 1 1 1;total 2 1 1;total 4 1 1;count-bound 3;path-bound 3 least;end;
- | x | x=1 ?x:0>A:B @A ^C @B ^C @C . => 0 facts 2;node 0 0 0 "main":entry;node 1 0 1 "main":0;node 2 0 1 "main":1;node 3 0 1 "main":2;node 4 0 1 "main":3;scope 0 - 0 call;dead 2;total 0 1 1;total 1 1 1;total 3 1 1;total 4 1 1;count-bound 3;path-bound 3 least;end;
- | x | x=1 x=2 ?x:1>A:2>B:C @A . @B . @C . => 0 facts 2;node 0 0 0 "main":entry;node 1 0 1 "main":0;node 2 0 1 "main":1;node 3 0 1 "main":2;node 4 0 1 "main":3;scope 0 - 0 call;dead 2;dead 4;total 0 1 1;total 1 1 1;total 3 1 1;count-bound 2;path-bound 2 least;end;
- | x y | x=1 y=2 ?x:1>A:B @A . @B . => 0 facts 2;node 0 0 0 "main":entry;node 1 0 1 "main":0;node 2 0 1 "main":1;node 3 0 1 "main":2;scope 0 - 0 call;dead 3;total 0 1 1;total 1 1 1;total 2 1 1;count-bound 2;path-bound 2 least;end;
- | y x | x=1 y=2 ?x:1>A:B @A . @B . => 0 facts 2;node 0 0 0 "main":entry;node 1 0 1 "main":0;node 2 0 1 "main":1;node 3 0 1 "main":2;scope 0 - 0 call;dead 3;total 0 1 1;total 1 1 1;total 2 1 1;count-bound 2;path-bound 2 least;end;
- | x y | y=2 x=y y=3 ?x:2>A:B @A . @B . => 0 facts 2;node 0 0 0 "main":entry;node 1 0 1 "main":0;node 2 0 1 "main":1;node 3 0 1 "main":2;scope 0 - 0 call;dead 3;total 0 1 1;total 1 1 1;total 2 1 1;count-bound 2;path-bound 2 least;end;
- | x | x=4294967295 x=x+2 ?x:1>A:B @A . @B . => 0 facts 2;node 0 0 0 "main":entry;node 1 0 1 "main":0;node 2 0 1 "main":1;node 3 0 1 "main":2;scope 0 - 0 call;dead 3;total 0 1 1;total 1 1 1;total 2 1 1;count-bound 2;path-bound 2 least;end;
- | x | x=1 x=x+4294967295 ?x:0>A:B @A . @B . => 0 facts 2;node 0 0 0 "main":entry;node 1 0 1 "main":0;node 2 0 1 "main":1;node 3 0 1 "main":2;scope 0 - 0 call;dead 3;total 0 1 1;total 1 1 1;total 2 1 1;count-bound 2;path-bound 2 least;end;
- | x | x=4294967294 x=x+1 ?x:4294967295>A:B @A . @B . => 0 facts 2;node 0 0 0 "main":entry;node 1 0 1 "main":0;node 2 0 1 "main":1;node 3 0 1 "main":2;scope 0 - 0 call;dead 3;total 0 1 1;total 1 1 1;total 2 1 1;count-bound 2;path-bound 2 least;end;
- | x | x=4294967294 x=x+1 ?x:0>A:B @A . @B . => 0 facts 2;node 0 0 0 "main":entry;node 1 0 1 "main":0;node 2 0 1 "main":1;node 3 0 1 "main":2;scope 0 - 0 call;dead 2;total 0 1 1;total 1 1 1;total 3 1 1;count-bound 2;path-bound 2 least;end;
- | i | i=00000000000000000001 @i . => 0 facts 2;node 0 0 0 "main":entry;node 1 0 1 "main":0;node 2 0 1 "main":1;scope 0 - 0 call;total 0 1 1;total 1 1 1;total 2 1 1;count-bound 2;path-bound 2 least;end;
- | main | main=1 . => 0 facts 2;node 0 0 0 "main":entry;node 1 0 1 "main":0;scope 0 - 0 call;total 0 1 1;total 1 1 1;count-bound 1;path-bound 1 least;end;
// functions and costs
r | r | { call @f #4 result &r } { call @f *r result &r } { return *r } /f:x { return { add 32 *x #1 '0 } } => 0 facts 2;node 0 0 0 "main":entry;node 1 0 1 "main":0;node 2 0 1 "main":1;node 3 0 1 "main":2;node 4 1 0 "main".0"f":entry;node 5 1 1 "main".0"f":0;node 6 2 0 "main".1"f":entry;node 7 2 1 "main".1"f":0;scope 0 - 0 call;scope 1 0 4 call;scope 2 0 6 call;total 0 1 1;total 1 1 1;total 2 1 1;total 3 1 1;total 4 1 1;total 5 1 1;total 6 1 1;total 7 1 1;count-bound 5;path-bound 5 least;end;
- | r | { call @f #4 result &r } { call @f *r result &r } { return *r } /f:x { return { add 32 *x #1 '0 } } | --turns 7 => 3 unbounded 0 "main":entry;
r | r | { call @f result &r } { return *r } /f::x { return *x } => 0 facts 2;node 0 0 0 "main":entry;node 1 0 1 "main":0;node 2 0 1 "main":1;node 3 1 0 "main".0"f":entry;node 4 1 1 "main".0"f":0;scope 0 - 0 call;scope 1 0 3 call;dead 2;total 0 1 1;total 1 1 1;total 3 1 1;total 4 1 1;alarm 4 uninit;count-bound 2;path-bound 2 least;end;
- | - | ^A @A . /f { return #7 } | --root f => 0 facts 2;node 0 0 0 "f":entry;node 1 0 1 "f":0;scope 0 - 0 call;total 0 1 1;total 1 1 1;count-bound 1;path-bound 1 least;end;
- | - | . /f @A ^A | --root f --turns 9 => 3 unbounded 1 "f":0;
- | - | @A ^A /f . | --root f => 0 facts 2;node 0 0 0 "f":entry;node 1 0 1 "f":0;scope 0 - 0 call;total 0 1 1;total 1 1 1;count-bound 1;path-bound 1 least;end;
- | i | i=0 @H ?i:3>E:B @B { call @f *i result &i } ^H @E . /f:x { return { add 32 *x #1 '0 } } => 0 facts 2;node 0 0 0 "main":entry;node 1 0 1 "main":0;node 2 1 1 "main":1;node 3 1 1 "main":2;node 4 1 1 "main":3;node 5 0 1 "main":4;node 6 2 0 "main".2"f":entry;node 7 2 1 "main".2"f":0;scope 0 - 0 call;scope 1 0 2 loop;scope 2 1 6 call;loop 1 4 4;count 1 3 3 3;count 1 4 3 3;total 0 1 1;total 1 1 1;total 2 4 4;total 3 3 3;total 4 3 3;total 5 1 1;total 6 3 3;total 7 3 3;count-bound 15;path-bound 15 least;end;
- | i | i=0 @H ?i:10>E:B @B i=i+1 ^H @E . | --costs c.toml | default=2;[[cost]];function="main";block=2;cost=5 => 0 facts 2;node 0 0 0 "main":entry;node 1 0 2 "main":0;node 2 1 2 "main":1;node 3 1 5 "main":2;node 4 0 2 "main":3;scope 0 - 0 call;scope 1 0 2 loop;loop 1 11 11;count 1 3 10 10;total 0 1 1;total 1 1 1;total 2 11 11;total 3 10 10;total 4 1 1;count-bound 76;path-bound 76 least;end;
- | i | ?i:E @E . | --costs c.toml | default=0 => 0 facts 2;node 0 0 0 "main":entry;node 1 0 0 "main":0;node 2 0 0 "main":1;scope 0 - 0 call;dead 2;total 0 1 1;total 1 1 1;alarm 1 uninit;count-bound 0;path-bound 0 least;end;
- | - | /main:p { return *p } => 0 facts 2;node 0 0 0 "main":entry;node 1 0 1 "main":0;scope 0 - 0 call;total 0 1 1;total 1 1 1;alarm 1 uninit;count-bound 1;path-bound 1 least;end;"#;

#[test]
fn each_program_has_one_report_wherever_states_are_merged(rt: HostRuntime) -> Result<(), Fail> {
    hold(rt.alloc(), REPORTS)
}

// A run of so many nodes as there may be.
const LONG: &str = r#"analyse a.alf $3
a.alf alf $0 | $1 | $2
c.toml text $4

- | i | i=0 @H ?i:249999>E:B @B i=i+1 ^C @C { null } ^D @D ^H @E . | --turns 1000000 => 0 facts 2;node 0 0 0 "main":entry;node 1 0 1 "main":0;node 2 1 1 "main":1;node 3 1 1 "main":2;node 4 1 1 "main":3;node 5 1 1 "main":4;node 6 0 1 "main":5;scope 0 - 0 call;scope 1 0 2 loop;loop 1 250000 250000;count 1 3 249999 249999;count 1 4 249999 249999;count 1 5 249999 249999;total 0 1 1;total 1 1 1;total 2 250000 250000;total 3 249999 249999;total 4 249999 249999;total 5 249999 249999;total 6 1 1;count-bound 999999;path-bound 999999 least;end;"#;

#[test]
fn a_run_may_have_a_million_nodes(rt: HostRuntime) -> Result<(), Fail> {
    hold(rt.alloc(), LONG)
}

// Runs of more.
const LONGER: &str = r#"analyse a.alf $3
a.alf alf $0 | $1 | $2
c.toml text $4

- | i | i=0 @H ?i:249999>E:B @B i=i+1 ^C @C { null } ^D @D ^H @E . | --turns 999999 => 3 unbounded 0 "main":entry;
- | - | @A ^A | --turns 1000000 => 3 unbounded 1 "main":0;"#;

#[test]
fn a_run_of_more_nodes_is_unbounded(rt: HostRuntime) -> Result<(), Fail> {
    hold(rt.alloc(), LONGER)
}

// What stands in place of each space between two tokens, where a semicolon stands for a line feed.
static SPACES: &str = "\
analyse a.alf
a.alf spaced $0
=> 0 facts 2;node 0 0 0 \"main\":entry;node 1 0 1 \"main\":0;scope 0 - 0 call;total 0 1 1;total 1 1 1;count-bound 1;path-bound 1 least;end;

 
   
\t
;
\r;
/**/
/* { \" */
/***/ 
;/* a *//* b **/\t";

#[test]
fn tokens_may_have_any_white_space_between_them(rt: HostRuntime) -> Result<(), Fail> {
    hold(rt.alloc(), SPACES)
}
