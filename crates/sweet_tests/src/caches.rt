//! Runs with an instruction cache, as `cache` tells them.

use crate::cases::{field, number_of, split_line, told_of};
use crate::tables::hold;
use std::alloc::{AllocError, Global};
use std::test::Fail;

// A program, perhaps the range of its input `n`, and options.
const ANSWERS: &str = r#"cache a.alf $3
a.alf alf - | $0 | $1

i | i=0 @H ?i:10>E:B @B i=i+1 ^H @E . |  | --sets 1 --ways 2 --line 16 --penalty 10 => 0 hit 2;hit 3;cache-bound 43;
i | i=0 @H ?i:10>E:B @B i=i+1 ^H @E . |  | --sets 1 --ways 1 --line 4 --penalty 10 => 0 cache-bound 353;
i | i=0 @H ?i:10>E:B @B i=i+1 ^H @E . |  | --sets 4 --ways 1 --line 4 --penalty 10 => 0 cache-bound 73;
i | i=0 @H ?i:10>E:B @B i=i+1 ^H @E . |  | --sets=1 --ways=2 --line=16 --penalty=0 --turns 24 => 0 hit 2;hit 3;cache-bound 23;
i | i=0 @H ?i:10>E:B @B i=i+1 ^H @E . |  | --sets 1 --ways 2 --line 16 --penalty 10 --turns 23 => 3 unbounded 0 "main":entry;
- | @A ^A |  | --sets 1 --ways 1 --line 4 --penalty 0 --turns 5 => 3 unbounded 1 "main":0;
- | . |  | --sets 1024 --ways 16 --line 4096 --penalty 4294967295 => 0 cache-bound 4294967296;
- | . /f { null } . |  | --sets 1 --ways 1 --line 4 --penalty 7 --root f => 0 cache-bound 15;
i | i=0 @H ?i:10>E:B @B i=i+1 ^H @E . |  | --sets 1 --ways 17 --line 16 --penalty 10 => 1 fault usage;
i | i=0 @H ?i:10>E:B @B i=i+1 ^H @E . |  | --sets 1 --ways 0 --line 16 --penalty 10 => 1 fault usage;
i | i=0 @H ?i:10>E:B @B i=i+1 ^H @E . |  | --sets 1025 --ways 2 --line 16 --penalty 10 => 1 fault usage;
i | i=0 @H ?i:10>E:B @B i=i+1 ^H @E . |  | --sets 1 --ways 2 --line 3 --penalty 10 => 1 fault usage;
i | i=0 @H ?i:10>E:B @B i=i+1 ^H @E . |  | --sets 1 --ways 2 --line 16 --penalty 4294967296 => 1 fault usage;
i | i=0 @H ?i:10>E:B @B i=i+1 ^H @E . |  | --sets 1 --ways 2 --line 16 => 1 fault usage;
i | i=0 @H ?i:10>E:B @B i=i+1 ^H @E . |  | --sets 1 --ways 2 --line 16 --penalty 10 --pivots 5 => 1 fault usage;


cache a.alf --inputs i.toml $3
a.alf alf - | $0 | $1
i.toml text [[input]];frame="n";offset=0;size=32;$2

// with an input
n | ?n:3>A:B @A { null } ^B @B . | low=0;high=2 | --sets 1 --ways 2 --line 16 --penalty 10 => 0 hit 3;cache-bound 12;
n | ?n:3>A:B @A { null } ^B @B . | low=0;high=3 | --sets 1 --ways 2 --line 16 --penalty 10 --merge none => 0 hit 2;hit 3;cache-bound 13;"#;

#[test]
fn a_cache_has_its_hits_and_its_bound(rt: HostRuntime) -> Result<(), Fail> {
    hold(rt.alloc(), ANSWERS)
}

// How many statements do nothing before the return, and further words. 65,536 statements have 64 lines of 4,096 bytes.
const STATEMENTS: &str = r#"cache a.alf --sets 1 --ways 2 --line 4096 --penalty 10$1
a.alf times 1 { alf { macro_defs } { least_addr_unit 8 } little_endian { exports { frefs } { lrefs } } { imports { frefs } { lrefs } } { decls } { inits } { funcs { func { label 32 { lref 32 "main" } { dec_unsigned 32 0 } } { arg_decls } { scope { decls } { inits } { stmts & $0 { null } & 1 { return } } } } } }

65535 |  => 0 cache-bound 641;
65536 |  => 2 fault 13 limit statements 65537;
65536 |  --root f => 2 fault 24 root "f";"#;

#[test]
fn a_program_has_at_most_65536_statements(rt: HostRuntime) -> Result<(), Fail> {
    hold(rt.alloc(), STATEMENTS)
}

// Frames, functions, the range of the input `n`, of which a run has the low end, and options; how many nodes the run
// has; the penalties of the accesses that miss in it; and the nodes where one misses. What they follow from stands
// behind them: the lines that the cache has at first, the newest first; the first statement of each node and how many
// it has; and the nodes of the run, where `2.3*10` stands for ten times 2 and 3. `bench/misses` works them out, by a
// plain cache of all lines that were accessed, the newest first.
const RUNS: &str = r#"!misses $5 | $6
run a.alf
cache a.alf $3
a.alf alf - | $0 | $1
=> turns $4 within

i | i=0 @H ?i:10>E:B @B i=i+1 ^H @E . |  | --sets 1 --ways 2 --line 16 --penalty 10 | 24 | 20 | 1 4 | - | 0+0 0+1 1+1 2+2 4+1 | 0.1 2.3*10 2.4
i | i=0 @H ?i:10>E:B @B i=i+1 ^H @E . |  | --sets 1 --ways 1 --line 4 --penalty 10 | 24 | 320 | 2 3 4 | 0 1 2 | 0+0 0+1 1+1 2+2 4+1 | 0.1 2.3*10 2.4
i | i=0 @H ?i:10>E:B @B i=i+1 ^H @E . |  | --sets 4 --ways 1 --line 4 --penalty 10 | 24 | 50 | 1 2 3 4 | 4 5 6 7 | 0+0 0+1 1+1 2+2 4+1 | 0.1 2.3*10 2.4
i | i=0 @H ?i:10>E:B @B i=i+1 ^H @E . |  | --sets 2 --ways 2 --line 4 --penalty 7 | 24 | 7 | 4 | 3 1 2 0 | 0+0 0+1 1+1 2+2 4+1 | 0.1 2.3*10 2.4
i | i=0 @H { switch { s_lt 32 *i #6 } { target '1 @B } { default @E } } @B { null } { null } { null } { null } { null } { null } i=i+1 ^H @E . |  | --sets 2 --ways 1 --line 8 --penalty 3 | 16 | 90 | 2 3 4 | 1 0 | 0+0 0+1 1+1 2+8 10+1 | 0.1 2.3*6 2.4
i | i=0 @H { switch { s_lt 32 *i #6 } { target '1 @B } { default @E } } @B { null } { null } { null } { null } { null } { null } i=i+1 ^H @E . |  | --sets 1 --ways 4 --line 8 --penalty 3 | 16 | 96 | 1 2 3 4 | 9 8 7 6 | 0+0 0+1 1+1 2+8 10+1 | 0.1 2.3*6 2.4
i | i=0 @H { switch { s_lt 32 *i #6 } { target '1 @B } { default @E } } @B { null } { null } { null } { null } { null } { null } i=i+1 ^H @E . |  | --sets 1 --ways 5 --line 8 --penalty 4294967295 | 16 | 4294967295 | 4 | 0 1 2 3 4 | 0+0 0+1 1+1 2+8 10+1 | 0.1 2.3*6 2.4
i j | i=0 @H { switch { s_lt 32 *i #5 } { target '1 @B } { default @E } } @B j=0 @G { switch { s_lt 32 *j *i } { target '1 @C } { default @F } } @C j=j+1 ^G @F i=i+1 ^H @E . |  | --sets 1 --ways 2 --line 8 --penalty 10 | 44 | 210 | 1 2 3 5 6 7 | 2 1 | 0+0 0+1 1+1 2+1 3+1 4+2 6+2 8+1 | 0.1.2.3 4.6.2.3.4.5*2 4.5.4.6.2.3.4.5.4.5*2 4.5*2 4.6.2.7
i j | i=0 @H { switch { s_lt 32 *i #5 } { target '1 @B } { default @E } } @B j=0 @G { switch { s_lt 32 *j *i } { target '1 @C } { default @F } } @C j=j+1 ^G @F i=i+1 ^H @E . |  | --sets 2 --ways 2 --line 4 --penalty 25 | 44 | 875 | 1 2 3 4 5 6 7 | - | 0+0 0+1 1+1 2+1 3+1 4+2 6+2 8+1 | 0.1.2.3 4.6.2.3.4.5*2 4.5.4.6.2.3.4.5.4.5*2 4.5*2 4.6.2.7
i j | i=0 @H { switch { s_lt 32 *i #5 } { target '1 @B } { default @E } } @B j=0 @G { switch { s_lt 32 *j *i } { target '1 @C } { default @F } } @C j=j+1 ^G @F i=i+1 ^H @E . |  | --sets 1 --ways 16 --line 4 --penalty 25 | 44 | 175 | 1 3 5 6 7 | 40 41 42 3 43 1 | 0+0 0+1 1+1 2+1 3+1 4+2 6+2 8+1 | 0.1.2.3 4.6.2.3.4.5*2 4.5.4.6.2.3.4.5.4.5*2 4.5*2 4.6.2.7
- | /main { call @f result } { call @g result } { call @f result } . /f { null } { null } . /g { call @f result } . |  | --sets 1 --ways 2 --line 8 --penalty 5 | 14 | 50 | 1 2 3 4 6 9 11 13 | - | 0+0 0+1 1+1 2+1 3+1 0+0 4+3 0+0 7+1 8+1 0+0 4+3 0+0 4+3 | 0.1.5.6.2.7.8.10.11.9.3.12.13.4
- | /main { call @f result } { call @g result } { call @f result } . /f { null } { null } . /g { call @f result } . |  | --sets 4 --ways 1 --line 4 --penalty 5 | 14 | 50 | 1 2 3 4 6 8 9 11 13 | 3 4 5 6 | 0+0 0+1 1+1 2+1 3+1 0+0 4+3 0+0 7+1 8+1 0+0 4+3 0+0 4+3 | 0.1.5.6.2.7.8.10.11.9.3.12.13.4
i | /main i=0 @H { switch { s_lt 32 *i #7 } { target '1 @B } { default @E } } @B { call @f result } i=i+1 ^H @E . /f { null } { null } { null } { null } { null } . |  | --sets 1 --ways 2 --line 16 --penalty 20 | 39 | 420 | 4 7 | 0 1 | 0+0 0+1 1+1 2+1 3+2 5+1 0+0 6+6 | 0.1 2.3.6.7.4*7 2.5
i | /main i=0 @H { switch { s_lt 32 *i #7 } { target '1 @B } { default @E } } @B { call @f result } i=i+1 ^H @E . /f { null } { null } { null } { null } { null } . |  | --sets 2 --ways 1 --line 16 --penalty 20 | 39 | 320 | 1 4 7 | 2 3 | 0+0 0+1 1+1 2+1 3+2 5+1 0+0 6+6 | 0.1 2.3.6.7.4*7 2.5
- | . |  | --sets 1 --ways 1 --line 4 --penalty 4294967295 | 2 | 0 |  | 0 | 0+0 0+1 | 0.1


!misses $5 | $6
run a.alf --inputs i.toml
cache a.alf --inputs i.toml $3
a.alf alf - | $0 | $1
i.toml text [[input]];frame="n";offset=0;size=32;$2
=> turns $4 within

i n | i=0 @H { switch { s_lt 32 *i *n } { target '1 @B } { default @E } } @B i=i+1 ^H @E . | low=3;high=8 | --sets 1 --ways 1 --line 8 --penalty 6 | 10 | 48 | 1 2 3 4 | 1 | 0+0 0+1 1+1 2+2 4+1 | 0.1 2.3*3 2.4
i n | i=0 @H { switch { s_lt 32 *i *n } { target '1 @B } { default @E } } @B i=i+1 ^H @E . | low=0;high=8 | --sets 4 --ways 2 --line 4 --penalty 0 | 4 | 0 | 1 4 | 8 4 5 1 | 0+0 0+1 1+1 2+2 4+1 | 0.1.2.4
n | ?n:3>A:B @A { null } { null } { null } @C { null } ^B @B . | low=3;high=7 | --sets 2 --ways 1 --line 4 --penalty 9 | 5 | 45 | 2 3 4 | 0 1 | 0+0 0+1 1+3 4+2 6+1 | 0.1.2.3.4
n | ?n:3>A:B @A { null } { null } { null } @C { null } ^B @B . | low=2;high=7 | --sets 2 --ways 1 --line 4 --penalty 9 | 3 | 18 | 1 4 | 3 2 | 0+0 0+1 1+3 4+2 6+1 | 0.1.4
i n | i=0 @H { switch { s_lt 32 *i #8 } { target '1 @B } { default @E } } @B ?n:1>P:Q @P { null } { null } { null } ^R @Q { null } { null } { null } { null } @R i=i+1 ^H @E . | low=1;high=2 | --sets 1 --ways 3 --line 8 --penalty 11 | 36 | 539 | 1 2 3 4 6 | 5 6 | 0+0 0+1 1+1 2+1 3+4 7+4 11+2 13+1 | 0.1 2.3.4.6*8 2.7
i n | i=0 @H { switch { s_lt 32 *i #8 } { target '1 @B } { default @E } } @B ?n:1>P:Q @P { null } { null } { null } ^R @Q { null } { null } { null } { null } @R i=i+1 ^H @E . | low=1;high=2 | --sets 2 --ways 2 --line 8 --penalty 11 | 36 | 495 | 2 3 4 6 | 0 1 2 3 | 0+0 0+1 1+1 2+1 3+4 7+4 11+2 13+1 | 0.1 2.3.4.6*8 2.7
i n | i=n @H { switch { s_lt 32 *i #20 } { target '1 @B } { default @E } } @B i=i+1 { null } { null } ^H @E { null } { null } . | low=0;high=30 | --sets 1024 --ways 16 --line 4096 --penalty 1 | 44 | 1 | 1 | 1024 2048 | 0+0 0+1 1+1 2+4 6+3 | 0.1 2.3*20 2.4"#;

#[test]
fn no_run_misses_more_than_the_bound_allows(rt: HostRuntime) -> Result<(), Fail> {
    hold(rt.alloc(), RUNS)
}

// The number behind a word of an answer.
fn told_number(told: &str, word: &str) -> u64 {
    let behind = told.split(word).nth(1).unwrap_or("");
    number_of(behind.split(';').next().unwrap_or(""))
}

/// Whether the bound of a cache is no less than what a run costs with its penalties, and no node at which an access
/// misses is told as one that hits: the penalties and the nodes stand in the first line, the words of `run` in the
/// second, and those of `cache` in the third.
pub fn missed(alloc: Global, asked: &str) -> Result<String, AllocError> {
    let (line, cases) = (split_line(asked, 0), split_line(asked, 1));
    let files = split_line(split_line(cases, 1), 1);
    let run = format!(in alloc; "{}\n{files}", split_line(cases, 0))?;
    let run = told_of(alloc, run.as_str())?;
    let told = told_of(alloc, split_line(cases, 1))?;
    let least = told_number(run.as_str(), "cost ").saturating_add(number_of(field(line, 0)));
    if least > told_number(told.as_str(), "cache-bound ") {
        return format!(in alloc; "{least} passed by {told}");
    }
    for node in field(line, 1).split(' ') {
        let hit = format!(in alloc; "hit {node};")?;
        if told.contains(hit.as_str()) {
            return format!(in alloc; "{hit} in {told}");
        }
    }
    format!(in alloc; "turns {} within", told_number(run.as_str(), "turns "))
}
