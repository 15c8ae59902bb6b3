//! Words that are a command, in every order and form, and words that are none.

use crate::tables::hold;
use std::test::Fail;

// Words of every kind that are none, and no word at all.
const USAGE: &str = r#"$0
a.alf alf - | - | .
=> 1 fault usage;

analyse

analyse a.alf --turns
analyse a.alf --turns 
analyse a.alf --turns 0
analyse a.alf --turns 1000001
analyse a.alf --turns 000000000000000000002
analyse a.alf --turns 99999999999999999999
analyse a.alf --turns +5
analyse a.alf --turns -5
analyse a.alf --turns 5x
analyse a.alf --turns=
analyse a.alf --turns=5=5
analyse a.alf --turn 5
anal a.alf
analyse a.alf --turns 1 --turns 2
analyse a.alf a.alf
analyse -a.alf
analyse a.c b.c
analyse -a.c
Analyse a.alf
analyse a.alf --root
analyse a.alf --root -f
analyse a.alf --root main --root main
analyse a.alf --costs
analyse a.alf --costs c.toml --costs=c.toml
analyse a.alf --inputs
analyse a.alf --inputs -i.toml
analyse a.alf --inputs i.toml --inputs=i.toml
analyse a.alf --merge
analyse a.alf --merge=
analyse a.alf --merge all
analyse a.alf --merge Joins
analyse a.alf --merge none --merge none
run a.alf --merge none
analyse a.alf --pivots
analyse a.alf --pivots=
analyse a.alf --pivots 0
analyse a.alf --pivots 4001
analyse a.alf --pivots -5
analyse a.alf --pivots 5x
analyse a.alf --pivots 5 --pivots 5
run a.alf --pivots 5
print a.alf --pivots 5
analyse a.alf --cert --cert
analyse a.alf -- --root main
print
print a.c b.c
print a.c --root main
print -a.c
print -a.alf
print a.alf b.alf
print a.alf --turns 5
print a.alf --root main
a.alf analyse
run
run --root main
run a.alf a.alf
run a.alf b.alf
run -a.alf
run a.c a.alf
run -a.c
lower
lower a.C
lower -a.c
lower a.c b.c
lower a.c --turns 5
lower a.c --root -f
Run a.alf
ru a.alf
run a.alf --turns
run a.alf --turns 
run a.alf --turns=
run a.alf --turns 0
run a.alf --turns 1000001
run a.alf --turns 000000000000000000002
run a.alf --turns -5
run a.alf --turns=-5
run a.alf --turns 5x
run a.alf --turns 5 --turns 5
run a.alf --turns=5 --turns 6
run a.alf --root
run a.alf --root -f
run a.alf --root main --root main
run a.alf --inputs
run a.alf --inputs -i.toml
run a.alf --inputs i.toml --inputs i.toml
run a.alf --costs
run a.alf --costs c.toml --root main --costs=c.toml
run a.alf --input i.toml
run a.alf --inputs i.toml i.toml
run a.alf --merge joins
run a.alf --at v.toml
run a.alf --cert
run a.alf -r main
run a.alf -- --root main
run -- a.alf --turns 5
run a.alf --help
--root main run a.alf
check a.alf
replay a.alf
replay a.alf r.txt --turns 5
migrate
migrate r.txt s.txt
migrate r.txt --root main
lower a.alf
generate
a.alf"#;

#[test]
fn other_words_are_no_command(rt: HostRuntime) -> Result<(), Fail> {
    hold(rt.alloc(), USAGE)
}

// Words that are answered with the report, with what is told of the run, and with the node that is left.
const TURNS: &str = r#"$0
a.alf alf - | - | .
=> 0 facts 2;node 0 0 0 "main":entry;node 1 0 1 "main":0;scope 0 - 0 call;total 0 1 1;total 1 1 1;count-bound 1;path-bound 1 least;end;

analyse a.alf
analyse a.alf --turns 2
analyse a.alf --turns=2
analyse --turns 2 a.alf
analyse --turns=2 -- a.alf
analyse a.alf --turns 000002
analyse a.alf --turns 00000000000000000002
analyse a.alf --turns 1000000
analyse a.alf --pivots 1
analyse --pivots=4000 a.alf


$0
a.alf alf - | - | .
=> 0 returned;turns 2;cost 1;

run a.alf
run -- a.alf
run a.alf --
run a.alf --turns 00000000000000000002
run a.alf --turns=1000000


$0
a.alf alf - | - | .
=> 3 unbounded 0 "main":entry;

analyse a.alf --turns 1
run --turns 1 a.alf"#;

#[test]
fn a_run_ends_within_its_turns_or_is_unbounded(rt: HostRuntime) -> Result<(), Fail> {
    hold(rt.alloc(), TURNS)
}

// The options of `run`, and of `analyse`, in each order, with the file at each place, and each option in one word
// or two. The function `f` counts up to its argument `n`, and costs more than 1 a block by the costs file.
const ORDERS: &str = r#"$0
a.alf alf - | - | { return #7 } /f:n:i i=0 @H { switch { s_lt 32 *i *n } { target '1 @B } { default @E } } @B i=i+1 ^H @E .
i.toml text [[input]];frame="n";offset=0;size=32;low=10;high=20
c.toml text default=2;[[cost]];function="f";block=2;cost=5

run a.alf --root f --inputs=i.toml --costs c.toml --turns=24 => 0 returned;turns 24;cost 76;
run --root f a.alf --inputs=i.toml --turns 23 --costs=c.toml => 3 unbounded 0 "f":entry;
run --root=f --costs c.toml a.alf --inputs=i.toml --turns 24 => 0 returned;turns 24;cost 76;
run --root=f --costs c.toml --turns=23 a.alf --inputs i.toml => 3 unbounded 0 "f":entry;
run --root f --turns=24 --inputs i.toml --costs=c.toml a.alf => 0 returned;turns 24;cost 76;
run a.alf --root f --turns=23 --costs c.toml --inputs=i.toml => 3 unbounded 0 "f":entry;
run --inputs=i.toml a.alf --root f --costs=c.toml --turns 24 => 0 returned;turns 24;cost 76;
run --inputs=i.toml --root f a.alf --turns=23 --costs c.toml => 3 unbounded 0 "f":entry;
run --inputs i.toml --costs=c.toml --root f a.alf --turns=24 => 0 returned;turns 24;cost 76;
run --inputs i.toml --costs=c.toml --turns 23 --root=f a.alf => 3 unbounded 0 "f":entry;
run a.alf --inputs=i.toml --turns 24 --root=f --costs c.toml => 0 returned;turns 24;cost 76;
run --inputs=i.toml a.alf --turns 23 --costs=c.toml --root f => 3 unbounded 0 "f":entry;
run --costs c.toml --root=f a.alf --inputs i.toml --turns=24 => 0 returned;turns 24;cost 76;
run --costs c.toml --root=f --turns 23 a.alf --inputs=i.toml => 3 unbounded 0 "f":entry;
run --costs=c.toml --inputs i.toml --root=f --turns 24 a.alf => 0 returned;turns 24;cost 76;
run a.alf --costs=c.toml --inputs i.toml --turns=23 --root f => 3 unbounded 0 "f":entry;
run --costs c.toml a.alf --turns=24 --root f --inputs=i.toml => 0 returned;turns 24;cost 76;
run --costs c.toml --turns=23 a.alf --inputs i.toml --root=f => 3 unbounded 0 "f":entry;
run --turns=24 --root f --inputs=i.toml a.alf --costs c.toml => 0 returned;turns 24;cost 76;
run --turns=23 --root f --costs=c.toml --inputs i.toml a.alf => 3 unbounded 0 "f":entry;
run a.alf --turns 24 --inputs=i.toml --root f --costs=c.toml => 0 returned;turns 24;cost 76;
run --turns 23 a.alf --inputs=i.toml --costs c.toml --root=f => 3 unbounded 0 "f":entry;
run --turns=24 --costs c.toml a.alf --root=f --inputs i.toml => 0 returned;turns 24;cost 76;
run --turns=23 --costs c.toml --inputs=i.toml a.alf --root f => 3 unbounded 0 "f":entry;


$0
a.alf alf - | - | { return #7 } /f:n:i i=0 @H { switch { s_lt 32 *i *n } { target '1 @B } { default @E } } @B i=i+1 ^H @E .
i.toml text [[
c.toml text default=2;[[cost]];function="f";block=2;cost=5

analyse a.alf --root f --costs=c.toml --turns 3 => 0 facts 2;node 0 0 0 "f":entry;node 1 0 2 "f":0;node 2 1 2 "f":1;node 3 1 5 "f":2;node 4 0 2 "f":3;scope 0 - 0 call;scope 1 0 2 loop;loop 1 1 1;dead 3;dead 4;total 0 1 1;total 1 1 1;total 2 1 1;alarm 2 uninit;count-bound 4;path-bound 4 least;end;
analyse --root f a.alf --turns=2 --costs c.toml => 3 unbounded 1 "f":1;
analyse --costs=c.toml --root f a.alf --turns=3 => 0 facts 2;node 0 0 0 "f":entry;node 1 0 2 "f":0;node 2 1 2 "f":1;node 3 1 5 "f":2;node 4 0 2 "f":3;scope 0 - 0 call;scope 1 0 2 loop;loop 1 1 1;dead 3;dead 4;total 0 1 1;total 1 1 1;total 2 1 1;alarm 2 uninit;count-bound 4;path-bound 4 least;end;
analyse --costs=c.toml --turns 2 --root=f a.alf => 3 unbounded 1 "f":1;
analyse a.alf --turns 3 --root=f --costs c.toml => 0 facts 2;node 0 0 0 "f":entry;node 1 0 2 "f":0;node 2 1 2 "f":1;node 3 1 5 "f":2;node 4 0 2 "f":3;scope 0 - 0 call;scope 1 0 2 loop;loop 1 1 1;dead 3;dead 4;total 0 1 1;total 1 1 1;total 2 1 1;alarm 2 uninit;count-bound 4;path-bound 4 least;end;
analyse --turns 2 a.alf --costs=c.toml --root f => 3 unbounded 1 "f":1;"#;

#[test]
fn options_stand_in_any_order_and_form(rt: HostRuntime) -> Result<(), Fail> {
    hold(rt.alloc(), ORDERS)
}
