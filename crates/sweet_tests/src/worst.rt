//! Boxes of inputs, as `worst` tells them.

use crate::cases::{field, number_of, replaced, split_line, told_of};
use crate::tables::hold;
use std::alloc::{AllocError, Global};
use std::test::Fail;

// A program, options and inputs.
const BOXES: &str = r#"worst a.alf $1
a.alf named $0
i.toml text $2
c.toml text default = 1

a loop bounded by an input | --inputs i.toml --splits 4 | [[input]];frame = "n";offset = 0;size = 32;low = 0;high = 10; => 0 box 13 0 5;box 19 6 8;box 21 9 9;box 23 10 10;worst 23 exact;
a loop bounded by an input | --inputs i.toml --splits 1 | [[input]];frame = "n";offset = 0;size = 32;low = 0;high = 10; => 0 box 13 0 5;box 23 6 10;worst 23 at-most;
a loop bounded by an input | --inputs i.toml | [[input]];frame = "n";offset = 0;size = 32;low = 0;high = 10; => 0 box 13 0 5;box 19 6 8;box 21 9 9;box 23 10 10;worst 23 exact;
a loop of ten turns |  |  => 0 box 23;worst 23 exact;
a loop of ten turns | --turns 23 |  => 3 unbounded 0 "main":entry;
a loop without an end | --turns 10 |  => 3 unbounded 1 "main":0;
a division by an input | --inputs i.toml | [[input]];frame = "d";offset = 0;size = 32;low = -2;high = 2; => 0 box 1 -2 -1;box 1 0 0;box 1 1 2;worst 1 exact;
two tests that exclude each other | --inputs i.toml --splits 1 | [[input]];frame = "x";offset = 0;size = 32;low = 0;high = 9; => 0 box 4 0 4;box 4 5 9;worst 4 at-most;
two tests that exclude each other | --inputs i.toml | [[input]];frame = "x";offset = 0;size = 32;low = 0;high = 9; => 0 box 4 0 1;box 4 2 2;box 4 3 4;box 4 5 9;worst 4 exact;"#;

#[test]
fn each_program_of_c_has_its_boxes(rt: HostRuntime) -> Result<(), Fail> {
    hold(rt.alloc(), BOXES)
}

// A loop that counts to an input, which costs 2 for each number from 1 to it, and 3: options and the input's range.
// A range of one value is a point. Half of two numbers is rounded down, below 0 too.
const COUNTED: &str = r#"worst a.alf --inputs i.toml $0
a.alf alf - | i n | i=0 @H { switch { s_lt 32 *i *n } { target '1 @B } { default @E } } @B i=i+1 ^H @E .
i.toml text [[input]];frame="n";offset=0;size=32;$1

 | low=3;high=3 => 0 box 9 3 3;worst 9 exact;
 | low=-7;high=-7 => 0 box 3 -7 -7;worst 3 exact;
--splits 3 | low=-7;high=0 => 0 box 3 -7 -7;box 3 -6 -6;box 3 -5 -4;box 3 -3 0;worst 3 exact;
--splits 16 | low=-10;high=-3 => 0 box 3 -10 -10;box 3 -9 -9;box 3 -8 -7;box 3 -6 -3;worst 3 exact;
--splits 256 | low=-5;high=4 => 0 box 3 -5 -1;box 7 0 2;box 9 3 3;box 11 4 4;worst 11 exact;
--splits=1 | low=-1;high=0 => 0 box 3 -1 -1;box 3 0 0;worst 3 exact;
--splits 2 | low=-2;high=3 => 0 box 3 -2 0;box 7 1 2;box 9 3 3;worst 9 exact;
--merge none --splits 2 | low=-3;high=2 => 0 box 3 -3 -1;box 5 0 1;box 7 2 2;worst 7 exact;
--pivots 1000 --splits 1 | low=0;high=1 => 0 box 3 0 0;box 5 1 1;worst 5 exact;
--splits 5 | low=0;high=1000 => 0 box 1003 0 500;box 1503 501 750;box 1753 751 875;box 1879 876 938;box 1941 939 969;box 2003 970 1000;worst 2003 at-most;
--turns 23 | low=0;high=10 => 3 unbounded 0 "main":entry;
--splits 1 | low=4294967289;high=4294967290 => 0 box 3 4294967289 4294967289;box 3 4294967290 4294967290;worst 3 exact;
--splits 0 | low=0;high=1 => 1 fault usage;
--splits 257 | low=0;high=1 => 1 fault usage;"#;

#[test]
fn a_loop_is_dearest_at_its_greatest_input(rt: HostRuntime) -> Result<(), Fail> {
    hold(rt.alloc(), COUNTED)
}

// Eight rows of all words of 32 bits, of which a program knows nothing: each box costs 1, and the first is split
// until it is a point, which takes 32 splits for each row.
const EIGHT: &str = r#"worst a.alf --inputs i.toml --splits $0
a.alf alf - | a%256 | .
i.toml text [[input]];frame="a";offset=0;size=32;count=8;low=-2147483648;high=2147483647

256 => 0 box 1 -2147483648 -2147483648 -2147483648 -2147483648 -2147483648 -2147483648 -2147483648 -2147483648 -2147483648 -2147483648 -2147483648 -2147483648 -2147483648 -2147483648 -2147483648 -2147483648;..;worst 1 exact;
255 => ..;worst 1 at-most;


!count box 0 worst
worst a.alf --inputs i.toml --splits $0
a.alf alf - | a%256 | .
i.toml text [[input]];frame="a";offset=0;size=32;count=8;low=-2147483648;high=2147483647

256 => box 257 0 0 worst 1 
255 => box 256 0 0 worst 1 "#;

#[test]
fn eight_rows_are_split_256_times(rt: HostRuntime) -> Result<(), Fail> {
    hold(rt.alloc(), EIGHT)
}

// Programs of one input or two: their frames and functions; the range of the input `n`, its numbers and its size;
// the same of the input `m`; and what the dearest run costs, worked out by hand. It is the exact bound.
const DEAREST: &str = r#"worst a.alf --inputs i.toml --splits 256
a.alf alf - | $0 | $1
i.toml text [[input]];frame="n";offset=0;$2
=> ..;worst $5 exact;
--
!dearest $3
run a.alf --inputs i.toml
a.alf alf - | $0 | $1
i.toml text [[input]];frame="n";offset=0;$4;low=<n>;high=<n>
=> $5

i n | i=0 @H { switch { s_lt 32 *i *n } { target '1 @B } { default @E } } @B i=i+1 ^H @E . | size=32;low=0;high=10 | 0 1 2 3 4 5 6 7 8 9 10 | size=32 | 23
n | ?n:3>A:B @A { null } @C { null } ^B @B . | size=32;low=0;high=7 | 0 1 2 3 4 5 6 7 | size=32 | 4
n | ?n:2>A:B @A { null } @B ?n:5>C:D @C { null } @D . | size=32;low=0;high=7 | 0 1 2 3 4 5 6 7 | size=32 | 4
i n | i=n @H { switch { s_lt 32 *i #5 } { target '1 @B } { default @E } } @B i=i+1 ^H @E . | size=32;low=-5;high=5 | -5 -4 -3 -2 -1 0 1 2 3 4 5 | size=32 | 23
n r | { store &r with { s_div 32 32 #100 *n } } @A { null } @B . | size=32;low=-2;high=2 | -2 -1 0 1 2 | size=32 | 3
n%8 | { switch { load 8 &n } { target { dec_unsigned 8 200 } @A } { default @B } } @A { null } @B . | size=8;low=198;high=201 | 198 199 200 201 | size=8 | 3
n r | ?n:1>A:B @A { call @f #4 result &r } @B . /f:x { return { add 32 *x #1 '0 } } | size=32;low=0;high=2 | 0 1 2 | size=32 | 4
i n | i=0 @H { switch { s_lt 32 *i #12 } { target '1 @B } { default @E } } @B { store &i with { add 32 *i *n '0 } } ^H @E . | size=32;low=1;high=6 | 1 2 3 4 5 6 | size=32 | 27


worst a.alf --inputs i.toml --splits 256
a.alf alf - | $0 | $1
i.toml text [[input]];frame="n";offset=0;$2;[[input]];frame="m";offset=0;$5
=> ..;worst $8 exact;
--
!dearest $3 | $6
run a.alf --inputs i.toml
a.alf alf - | $0 | $1
i.toml text [[input]];frame="n";offset=0;$4;low=<n>;high=<n>;[[input]];frame="m";offset=0;$7;low=<m>;high=<m>
=> $8

i n m | i=0 @H { switch { s_lt 32 *i *n } { target '1 @B } { default @G } } @B i=i+1 ^H @G i=0 @K { switch { s_lt 32 *i *m } { target '1 @C } { default @E } } @C i=i+1 ^K @E . | size=32;low=0;high=3 | 0 1 2 3 | size=32 | size=32;low=0;high=2 | 0 1 2 | size=32 | 15
i j n m | i=0 @H { switch { s_lt 32 *i *n } { target '1 @B } { default @E } } @B j=0 @K { switch { s_lt 32 *j *m } { target '1 @C } { default @D } } @C j=j+1 ^K @D i=i+1 ^H @E . | size=32;low=0;high=3 | 0 1 2 3 | size=32 | size=32;low=0;high=2 | 0 1 2 | size=32 | 27"#;

#[test]
fn an_exact_bound_is_what_the_dearest_run_costs(rt: HostRuntime) -> Result<(), Fail> {
    hold(rt.alloc(), DEAREST)
}

/// The greatest cost of the runs of the case below the first line, with each of the numbers there in place of
/// `<n>`, and of those behind ` | ` in place of `<m>`.
pub fn dearest(alloc: Global, asked: &str) -> Result<String, AllocError> {
    let numbers = split_line(asked, 0);
    let mut most = 0;
    for first in field(numbers, 0).split(' ') {
        let case = replaced(alloc, split_line(asked, 1), "<n>", first)?;
        for second in field(numbers, 1).split(' ') {
            let case = replaced(alloc, case.as_str(), "<m>", second)?;
            let told = told_of(alloc, case.as_str())?;
            let cost = told.as_str().split("cost ").nth(1).unwrap_or("");
            most = number_of(cost.split(';').next().unwrap_or("")).max(most);
        }
    }
    format!(in alloc; "{most}")
}
