//! Programs and files that are refused, and the line that tells it.

use crate::tables::hold;
use std::test::Fail;

// Programs that do not pass the checks, each with its exports, its global frames and its functions, and the line
// that tells it. Printed they are none the less.
const PROGRAMS: &str = r#"run a.alf
a.alf alf $0 | $1 | $2
--
analyse a.alf
a.alf alf $0 | $1 | $2
--
print a.alf
a.alf alf $0 | $1 | $2
=> 0 { alf..

// a name that nothing has, or that two have
q | - | . => 2 fault 20 unknown "q";
@g | - | . => 2 fault 20 unknown "g";
- | - | x=1 . => 2 fault 20 unknown "x";
- | i | i=j . => 2 fault 20 unknown "j";
- | i | i=j+1 . => 2 fault 20 unknown "j";
- | i | ?j:A @A . => 2 fault 20 unknown "j";
- | i | i=0 ?i:1>Z:A @A . => 2 fault 20 unknown "Z";
- | i | i=0 ?i:1>A:Z @A . => 2 fault 20 unknown "Z";
- | i | i=0 ?i:i @A . => 2 fault 20 unknown "i";
- | - | ^Z . => 2 fault 20 unknown "Z";
- | - | ^A . /f @A . => 2 fault 20 unknown "A";
- | - | { call @g result } . => 2 fault 20 unknown "g";
- | - | { call @f result &x } . /f:x { return #1 } => 2 fault 20 unknown "x";
- | - | { return *x } /f:x . => 2 fault 20 unknown "x";
- | i i | . => 2 fault 21 duplicate "i";
- | - | . /f . /f . => 2 fault 21 duplicate "f";
- | - | . /main . => 2 fault 21 duplicate "main";
- | x | . /f:x . => 2 fault 21 duplicate "x";
- | - | . /f:x:x . => 2 fault 21 duplicate "x";
- | - | @A @A . => 2 fault 21 duplicate "A";
- | - | @main . => 2 fault 21 duplicate "main";
- | - | @f . /f . => 2 fault 21 duplicate "f";
- | i | i=0 ?i:1>A:1>B:A @A . @B . => 2 fault 21 duplicate "1";
- | i | i=0 ?i:1>A:01>B:A @A . @B . => 2 fault 21 duplicate "1";
- | - | { switch { dec_unsigned 8 1 } { target { dec_signed 8 { minus 1 } } @A } { target { dec_unsigned 8 255 } @A } { default @A } } @A . => 2 fault 21 duplicate "255";
// a size that does not fit
- | - | { return { add 32 #1 { dec_unsigned 16 1 } '0 } } => 2 fault 22 size "main" 0;
- | i | i=0 @H { switch { load 16 &i } { target #10 @E } { default @B } } @B i=i+1 ^H @E . => 2 fault 22 size "main" 2;
- | i | i=0 @H ?i:10>E:B @B { store &i with { add 16 *i #1 '0 } } ^H @E . => 2 fault 22 size "main" 4;
- | i | i=0 @H { switch *i { target { dec_unsigned 16 10 } @E } { default @B } } @B i=i+1 ^H @E . => 2 fault 22 size "main" 2;
- | i | @A { null } { store { dec_unsigned 8 0 } with #1 } . => 2 fault 22 size "main" 2;
- | i | { store &i with '1 } . => 2 fault 22 size "main" 0;
- | - | . { return #1 } => 2 fault 22 size "main" 1;
- | - | { call @f result } . /f:x . => 2 fault 22 size "main" 0;
- | - | { call @f #1 result } . /f . => 2 fault 22 size "main" 0;
- | - | { call @f #1 result } . /f:x%8 . => 2 fault 22 size "main" 0;
- | r | { call @f result &r } . /f { null } . => 2 fault 22 size "f" 1;
- | r | { call @f result } . /f @A { return #1 } => 2 fault 22 size "f" 1;
- | r | { call @f result &r } . /f { return '1 } => 2 fault 22 size "f" 0;
- | r | . /f { return #1 } /g { call @f result } . => 2 fault 22 size "g" 0;
r | r%24 | . => 2 fault 22 size "r" -;
r | r%128 | . => 2 fault 22 size "r" -;
// a call that comes back
- | - | { call @main result } . => 2 fault 23 recursion "main" "main";
- | - | . /f { call @f result } . => 2 fault 23 recursion "f" "f";
- | - | { call @f result } . /g { call @f result } . /f { call @g result } . => 2 fault 23 recursion "g" "f" "g";
- | - | { call @f result } . /f { call @g result } . /g { call @h result } . /h { call @f result } . => 2 fault 23 recursion "f" "g" "h" "f";
- | - | { null } . { call @main result } . => 2 fault 23 recursion "main" "main";
// of several faults the first: names and sizes in the order of the text, then recursion
- | i i | i=j { call @main result } . => 2 fault 21 duplicate "i";
q | i i | . => 2 fault 20 unknown "q";
- | - | { store { dec_unsigned 8 0 } with #1 } ^Z . => 2 fault 22 size "main" 0;
- | - | ^Z { store { dec_unsigned 8 0 } with #1 } . => 2 fault 20 unknown "Z";
- | - | { null } { null } { return { add 32 #1 { dec_unsigned 16 1 } '0 } } => 2 fault 22 size "main" 2;
- | - | { call @main result } . /f ^Z . => 2 fault 20 unknown "Z";"#;

#[test]
fn a_program_that_does_not_pass_is_told(rt: HostRuntime) -> Result<(), Fail> {
    hold(rt.alloc(), PROGRAMS)
}

// Words, and the line that tells that no function has the name of the root, or that it can be no name.
const ROOTS: &str = r#"$0
a.alf alf - | i | i=0 @H .

run a.alf --root f => 2 fault 24 root "f";
run a.alf --root=f => 2 fault 24 root "f";
run a.alf --root  => 1 fault usage;
run a.alf --root= => 1 fault usage;
run a.alf --root Main => 2 fault 24 root "Main";
run a.alf --root x"y => 1 fault usage;
run a.alf --root x\y => 1 fault usage;
run a.alf --root x~y! => 2 fault 24 root "x~y!";
run a.alf --root=-f => 2 fault 24 root "-f";
run a.alf --root i => 2 fault 24 root "i";
run a.alf --root H => 2 fault 24 root "H";
analyse a.alf --root f => 2 fault 24 root "f";
analyse --root= a.alf => 1 fault usage;


$0
a.alf alf - | - | $1
i.toml text [[
c.toml text [[

// recursion is told before the root, and the root before files
run a.alf --root f | { call @main result } . => 2 fault 23 recursion "main" "main";
run a.alf --root f | { call @main result } ^A => 2 fault 20 unknown "A";
run a.alf --root f --inputs i.toml --costs c.toml | . => 2 fault 24 root "f";
analyse a.alf --root f --costs c.toml | . => 2 fault 24 root "f";
analyse a.alf --costs c.toml | . => 2 fault 70 toml costs;"#;

#[test]
fn no_function_has_the_name_of_the_root(rt: HostRuntime) -> Result<(), Fail> {
    hold(rt.alloc(), ROOTS)
}

// An inputs file and a costs file of a program whose globals are `i` and `n` and whose function `main` has four
// blocks.
const TABLES: &str = r#"run a.alf --inputs i.toml --costs c.toml --turns 1
a.alf alf - | i n | i=0 @H { switch { s_lt 32 *i *n } { target '1 @B } { default @E } } @B i=i+1 ^H @E .
i.toml text $0
c.toml text $1

[[ | - => 2 fault 70 toml inputs;
x=1 | - => 2 fault 71 key inputs -;
[[input]];frame="n";offset=0;size=32;lo=0;high=10 | - => 2 fault 71 key inputs 0;
[[input]];frame="n";offset=0;size=32;low=0;high=10;[[input]] | - => 2 fault 71 key inputs 1;
[[input]];frame="n";offset=0;size=32;low=11;high=10 | - => 2 fault 72 range inputs 0;
[[input]];frame="n";offset=0;size=32;low=0;high=10;[[input]];frame="i";offset=0;size=24;low=0;high=0 | - => 2 fault 72 range inputs 1;
[[input]];frame="m";offset=0;size=32;low=0;high=10 | - => 2 fault 73 cell inputs 0;
[[input]];frame="n";offset=0;size=32;low=0;high=10;[[input]];frame="n";offset=2;size=16;low=0;high=0 | - => 2 fault 73 cell inputs 1;
# none | [[ => 2 fault 70 toml costs;
# none | default=-1 => 2 fault 71 key costs -;
# none | [[cost]];function="main";block=0 => 2 fault 71 key costs 0;
# none | [[cost]];function="main";block=0;cost=1;[[cost]];function="main";block=0;cost=-1 => 2 fault 72 range costs 1;
# none | [[cost]];function="main";block=0;cost=4294967296 => 2 fault 72 range costs 0;
# none | default=2;[[cost]];function="main";block=4;cost=5 => 2 fault 73 cell costs 0;
# none | [[cost]];function="f";block=0;cost=5 => 2 fault 73 cell costs 0;
[[ | [[ => 2 fault 70 toml inputs;
[[input]];frame="m";offset=0;size=32;low=0;high=10 | [[ => 2 fault 73 cell inputs 0;"#;

#[test]
fn a_file_of_inputs_or_costs_that_is_refused_is_told(rt: HostRuntime) -> Result<(), Fail> {
    hold(rt.alloc(), TABLES)
}

// Words; the blocks of `main`, each of which leads to the next; how many of them, the first ones, lead to the first
// block and to the last one as well, and how many do not.
const GRAPHS: &str = r#"$0
a.alf alfs 1 /main::x & $2 @A~ ?x:0>A1:1>A$1:A~+ & $3 @A~ { null } & 1 .
i.toml text [[

run a.alf | 511 | 0 | 511 => 0 returned;turns 512;cost 511;
run a.alf | 512 | 0 | 512 => 2 fault 13 limit nodes 513;
run a.alf | 401 | 311 | 90 => 0 stopped uninit "main":0;turns 2;cost 1;
run a.alf | 402 | 311 | 91 => 2 fault 13 limit edges 1025;
run a.alf | 600 | 400 | 200 => 2 fault 13 limit nodes 513;
run a.alf --root f | 512 | 0 | 512 => 2 fault 24 root "f";
run a.alf --turns 1 | 512 | 0 | 512 => 2 fault 13 limit nodes 513;
run a.alf --inputs i.toml | 512 | 0 | 512 => 2 fault 13 limit nodes 513;
run a.alf --inputs i.toml | 511 | 0 | 511 => 2 fault 70 toml inputs;
run a.alf --costs no.toml | 402 | 311 | 91 => 2 fault 13 limit edges 1025;
analyse a.alf | 512 | 0 | 512 => 2 fault 13 limit nodes 513;
analyse a.alf | 402 | 311 | 91 => 2 fault 13 limit edges 1025;


$0
a.alf alfs 1 { call @f1 result } { call @f1 result } . & 40 /f~ { call @f~+ result } { call @f~+ result } . & 1 /f41 .

// each function calls the next one twice, so the last one has a million million instances
run a.alf => 2 fault 13 limit nodes 513;"#;

#[test]
fn a_graph_has_at_most_512_nodes_and_1024_edges(rt: HostRuntime) -> Result<(), Fail> {
    hold(rt.alloc(), GRAPHS)
}

// Two blocks that jump to each other, either of which a run may come to first. The walks that show it lead from the
// one to the other, or the other way round. It is told after the graph, and before any file of inputs or of costs
// is read.
const TWO_WAYS: &str = r#"$0
a.alf alf - | - | { switch #0 { target #0 @A } { default @B } } @A ^B @B ^A
c.toml text [[
=> 2 fault 40 irreducible to-header "main":entry "main":0 "main":1 to-tail "main":1 "main":2 around "main":entry "main":0 "main":2; or 2 fault 40 irreducible to-header "main":entry "main":0 "main":2 to-tail "main":2 "main":1 around "main":entry "main":0 "main":1;

analyse a.alf
analyse a.alf --turns 1 --costs no.toml
run a.alf
run a.alf --turns 1 --inputs no.toml --costs c.toml"#;

#[test]
fn a_loop_that_is_entered_at_two_nodes_is_refused(rt: HostRuntime) -> Result<(), Fail> {
    hold(rt.alloc(), TWO_WAYS)
}
