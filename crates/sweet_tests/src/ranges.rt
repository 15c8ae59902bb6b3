//! Programs with inputs inside their ranges, as the report of `analyse` tells them.

use crate::tables::hold;
use std::test::Fail;

// A program, options and inputs.
const REPORTS: &str = r#"analyse a.alf $1
a.alf named $0
i.toml text $2
c.toml text default = 1

a loop of ten turns |  |  => 0 facts 2;node 0 0 0 "main":entry;node 1 0 1 "main":0;node 2 1 1 "main":1;node 3 1 1 "main":2;node 4 0 1 "main":3;scope 0 - 0 call;scope 1 0 2 loop;loop 1 11 11;count 1 3 10 10;total 0 1 1;total 1 1 1;total 2 11 11;total 3 10 10;total 4 1 1;count-bound 23;path-bound 23 least;end;
a loop bounded by an input | --inputs i.toml | [[input]];frame = "n";offset = 0;size = 32;low = 0;high = 10; => 0 facts 2;node 0 0 0 "main":entry;node 1 0 1 "main":0;node 2 1 1 "main":1;node 3 1 1 "main":2;node 4 0 1 "main":3;scope 0 - 0 call;scope 1 0 2 loop;loop 1 1 11;count 1 3 0 10;total 0 1 1;total 1 1 1;total 2 1 11;total 3 0 10;total 4 1 1;count-bound 23;path-bound 23 least;end;
a loop of ten turns | --turns 24 |  => 0 facts 2;node 0 0 0 "main":entry;node 1 0 1 "main":0;node 2 1 1 "main":1;node 3 1 1 "main":2;node 4 0 1 "main":3;scope 0 - 0 call;scope 1 0 2 loop;loop 1 11 11;count 1 3 10 10;total 0 1 1;total 1 1 1;total 2 11 11;total 3 10 10;total 4 1 1;count-bound 23;path-bound 23 least;end;
a loop of ten turns | --turns 23 |  => 3 unbounded 0 "main":entry;
a loop without an end | --turns 10 |  => 3 unbounded 1 "main":0;
a triangle of two loops |  |  => 0 facts 2;node 0 0 0 "main":entry;node 1 0 1 "main":0;node 2 1 1 "main":1;node 3 1 1 "main":2;node 4 2 1 "main":3;node 5 2 1 "main":4;node 6 2 1 "main":5;node 7 1 1 "main":6;node 8 0 1 "main":7;scope 0 - 0 call;scope 1 0 2 loop;scope 2 1 4 loop;loop 1 11 11;loop 2 1 10;count 1 3 10 10;count 1 7 10 10;count 2 5 0 9;count 2 6 0 9;total 0 1 1;total 1 1 1;total 2 11 11;total 3 10 10;total 4 55 55;total 5 45 45;total 6 45 45;total 7 10 10;total 8 1 1;count-bound 178;path-bound 178 least;end;
a counter that starts at an input | --inputs i.toml | [[input]];frame = "a";offset = 0;size = 32;low = -5;high = 5; => 0 facts 2;node 0 0 0 "main":entry;node 1 0 1 "main":0;node 2 1 1 "main":1;node 3 1 1 "main":2;node 4 0 1 "main":3;scope 0 - 0 call;scope 1 0 2 loop;loop 1 1 11;count 1 3 0 10;total 0 1 1;total 1 1 1;total 2 1 11;total 3 0 10;total 4 1 1;count-bound 23;path-bound 23 least;end;
an unsigned char never passes 255 | --turns 600 |  => 3 unbounded 1 "main":1;
steps of three | --inputs i.toml | [[input]];frame = "k";offset = 0;size = 32;low = 0;high = 3; => 0 facts 2;node 0 0 0 "main":entry;node 1 0 1 "main":0;node 2 1 1 "main":1;node 3 1 1 "main":2;node 4 0 1 "main":3;scope 0 - 0 call;scope 1 0 2 loop;loop 1 8 11;count 1 3 7 10;total 0 1 1;total 1 1 1;total 2 8 11;total 3 7 10;total 4 1 1;count-bound 23;path-bound 23 least;end;
a division by an input | --inputs i.toml | [[input]];frame = "d";offset = 0;size = 32;low = -2;high = 2; => 0 facts 2;node 0 0 0 "main":entry;node 1 0 1 "main":0;scope 0 - 0 call;total 0 1 1;total 1 1 1;alarm 1 divide;count-bound 1;path-bound 1 least;end;
a local without a value |  |  => 0 facts 2;node 0 0 0 "main":entry;node 1 0 1 "main":0;scope 0 - 0 call;total 0 1 1;total 1 1 1;alarm 1 uninit;count-bound 1;path-bound 1 least;end;
a store at one of four places | --inputs i.toml | [[input]];frame = "k";offset = 0;size = 32;low = 0;high = 3; => 0 facts 2;node 0 0 0 "main":entry;node 1 0 1 "main":0;node 2 0 1 "main":1;node 3 0 1 "main":3;scope 0 - 0 call;total 0 1 1;total 1 1 1;total 2 0 1;total 3 0 1;pair 0 2 3;count-bound 3;path-bound 2 least;end;
a pointer to one of two arrays | --inputs i.toml | [[input]];frame = "c";offset = 0;size = 32;low = 0;high = 1; => 0 facts 2;node 0 0 0 "main":entry;node 1 0 1 "main":0;node 2 0 1 "main":1;node 3 0 1 "main":2;node 4 0 1 "main":3;scope 0 - 0 call;total 0 1 1;total 1 1 1;total 2 0 1;total 3 0 1;total 4 1 1;pair 0 2 3;alarm 4 bounds;count-bound 4;path-bound 3 least;end;
a case that always comes | --inputs i.toml | [[input]];frame = "x";offset = 0;size = 32;low = 3;high = 3; => 0 facts 2;node 0 0 0 "main":entry;node 1 0 1 "main":0;node 2 0 1 "main":1;node 3 0 1 "main":2;scope 0 - 0 call;dead 3;total 0 1 1;total 1 1 1;total 2 1 1;count-bound 2;path-bound 2 least;end;
insertion sort | --inputs i.toml | [[input]];frame = "a";offset = 0;size = 32;count = 10;low = -100;high = 100; => 0 facts 2;node 0 0 0 "main":entry;node 1 0 1 "main":0;node 2 1 1 "main":1;node 3 1 1 "main":2;node 4 2 1 "main":3;node 5 2 1 "main":4;node 6 2 1 "main":5;node 7 1 1 "main":6;node 8 1 1 "main":7;node 9 0 1 "main":8;scope 0 - 0 call;scope 1 0 2 loop;scope 2 1 4 loop;loop 1 10 10;loop 2 1 10;count 1 3 9 9;count 1 7 9 9;count 1 8 9 9;count 2 5 1 9;count 2 6 0 9;total 0 1 1;total 1 1 1;total 2 10 10;total 3 9 9;total 4 9 54;total 5 9 45;total 6 0 45;total 7 9 9;total 8 9 9;total 9 1 1;count-bound 183;path-bound 183 least;end;
// where the states of both arms are joined it is lost that the tests exclude each other
two tests that exclude each other | --inputs i.toml --merge none | [[input]];frame = "x";offset = 0;size = 32;low = 0;high = 9; => 0 facts 2;node 0 0 0 "main":entry;node 1 0 1 "main":0;node 2 0 1 "main":1;node 3 0 1 "main":2;node 4 0 1 "main":3;node 5 0 1 "main":4;scope 0 - 0 call;total 0 1 1;total 1 1 1;total 2 0 1;total 3 1 1;total 4 0 1;total 5 1 1;pair 0 2 4;count-bound 5;path-bound 4 least;end;
two tests that exclude each other | --inputs i.toml --merge exits | [[input]];frame = "x";offset = 0;size = 32;low = 0;high = 9; => 0 facts 2;node 0 0 0 "main":entry;node 1 0 1 "main":0;node 2 0 1 "main":1;node 3 0 1 "main":2;node 4 0 1 "main":3;node 5 0 1 "main":4;scope 0 - 0 call;total 0 1 1;total 1 1 1;total 2 0 1;total 3 1 1;total 4 0 1;total 5 1 1;pair 0 2 4;count-bound 5;path-bound 4 least;end;
two tests that exclude each other | --inputs i.toml --merge joins | [[input]];frame = "x";offset = 0;size = 32;low = 0;high = 9; => 0 facts 2;node 0 0 0 "main":entry;node 1 0 1 "main":0;node 2 0 1 "main":1;node 3 0 1 "main":2;node 4 0 1 "main":3;node 5 0 1 "main":4;scope 0 - 0 call;total 0 1 1;total 1 1 1;total 2 0 1;total 3 1 1;total 4 0 1;total 5 1 1;count-bound 5;path-bound 5 least;end;
two tests that exclude each other | --inputs i.toml | [[input]];frame = "x";offset = 0;size = 32;low = 0;high = 9; => 0 facts 2;node 0 0 0 "main":entry;node 1 0 1 "main":0;node 2 0 1 "main":1;node 3 0 1 "main":2;node 4 0 1 "main":3;node 5 0 1 "main":4;scope 0 - 0 call;total 0 1 1;total 1 1 1;total 2 0 1;total 3 1 1;total 4 0 1;total 5 1 1;count-bound 5;path-bound 5 least;end;
// a bound that is stopped by the number of pivots may be as great as the count bound, and nothing else differs
two tests that exclude each other | --inputs i.toml --merge none --pivots 1 | [[input]];frame="x";offset=0;size=32;low=0;high=9 => 0 facts 2;node 0 0 0 "main":entry;node 1 0 1 "main":0;node 2 0 1 "main":1;node 3 0 1 "main":2;node 4 0 1 "main":3;node 5 0 1 "main":4;scope 0 - 0 call;total 0 1 1;total 1 1 1;total 2 0 1;total 3 1 1;total 4 0 1;total 5 1 1;pair 0 2 4;count-bound 5;path-bound 4 stopped;end;
two tests that exclude each other | --inputs i.toml --merge none --pivots=2 | [[input]];frame="x";offset=0;size=32;low=0;high=9 => 0 facts 2;node 0 0 0 "main":entry;node 1 0 1 "main":0;node 2 0 1 "main":1;node 3 0 1 "main":2;node 4 0 1 "main":3;node 5 0 1 "main":4;scope 0 - 0 call;total 0 1 1;total 1 1 1;total 2 0 1;total 3 1 1;total 4 0 1;total 5 1 1;pair 0 2 4;count-bound 5;path-bound 4 least;end;
two tests that exclude each other | --inputs i.toml --merge none --pivots 1000 | [[input]];frame="x";offset=0;size=32;low=0;high=9 => 0 facts 2;node 0 0 0 "main":entry;node 1 0 1 "main":0;node 2 0 1 "main":1;node 3 0 1 "main":2;node 4 0 1 "main":3;node 5 0 1 "main":4;scope 0 - 0 call;total 0 1 1;total 1 1 1;total 2 0 1;total 3 1 1;total 4 0 1;total 5 1 1;pair 0 2 4;count-bound 5;path-bound 4 least;end;
a store at one of four places | --inputs i.toml --merge none --pivots 1 | [[input]];frame="k";offset=0;size=32;low=0;high=3 => 0 facts 2;node 0 0 0 "main":entry;node 1 0 1 "main":0;node 2 0 1 "main":1;node 3 0 1 "main":3;scope 0 - 0 call;total 0 1 1;total 1 1 1;total 2 0 1;total 3 0 1;pair 0 2 3;count-bound 3;path-bound 3 stopped;end;
a store at one of four places | --inputs i.toml --merge none --pivots 2 | [[input]];frame="k";offset=0;size=32;low=0;high=3 => 0 facts 2;node 0 0 0 "main":entry;node 1 0 1 "main":0;node 2 0 1 "main":1;node 3 0 1 "main":3;scope 0 - 0 call;total 0 1 1;total 1 1 1;total 2 0 1;total 3 0 1;pair 0 2 3;count-bound 3;path-bound 2 least;end;
a pointer to one of two arrays | --inputs i.toml --merge none --pivots 1 | [[input]];frame="c";offset=0;size=32;low=0;high=1 => 0 facts 2;node 0 0 0 "main":entry;node 1 0 1 "main":0;node 2 0 1 "main":1;node 3 0 1 "main":2;node 4 0 1 "main":3;scope 0 - 0 call;total 0 1 1;total 1 1 1;total 2 0 1;total 3 0 1;total 4 1 1;pair 0 2 3;alarm 4 bounds;count-bound 4;path-bound 4 stopped;end;
a pointer to one of two arrays | --inputs i.toml --merge none --pivots 4000 | [[input]];frame="c";offset=0;size=32;low=0;high=1 => 0 facts 2;node 0 0 0 "main":entry;node 1 0 1 "main":0;node 2 0 1 "main":1;node 3 0 1 "main":2;node 4 0 1 "main":3;scope 0 - 0 call;total 0 1 1;total 1 1 1;total 2 0 1;total 3 0 1;total 4 1 1;pair 0 2 3;alarm 4 bounds;count-bound 4;path-bound 3 least;end;"#;

#[test]
fn each_program_of_c_has_its_report(rt: HostRuntime) -> Result<(), Fail> {
    hold(rt.alloc(), REPORTS)
}

// A program and its inputs, where merging loses nothing, so that each mode has the same report.
const MERGED: &str = r#"analyse a.alf --inputs=i.toml --merge=none
a.alf named $0
i.toml text $1
--
analyse a.alf --inputs=i.toml --merge=exits
a.alf named $0
i.toml text $1
--
analyse a.alf --inputs=i.toml --merge=joins
a.alf named $0
i.toml text $1

a loop of ten turns |  => 0 facts 2;node 0 0 0 "main":entry;node 1 0 1 "main":0;node 2 1 1 "main":1;node 3 1 1 "main":2;node 4 0 1 "main":3;scope 0 - 0 call;scope 1 0 2 loop;loop 1 11 11;count 1 3 10 10;total 0 1 1;total 1 1 1;total 2 11 11;total 3 10 10;total 4 1 1;count-bound 23;path-bound 23 least;end;
a loop bounded by an input | [[input]];frame = "n";offset = 0;size = 32;low = 0;high = 10; => 0 facts 2;node 0 0 0 "main":entry;node 1 0 1 "main":0;node 2 1 1 "main":1;node 3 1 1 "main":2;node 4 0 1 "main":3;scope 0 - 0 call;scope 1 0 2 loop;loop 1 1 11;count 1 3 0 10;total 0 1 1;total 1 1 1;total 2 1 11;total 3 0 10;total 4 1 1;count-bound 23;path-bound 23 least;end;
a triangle of two loops |  => 0 facts 2;node 0 0 0 "main":entry;node 1 0 1 "main":0;node 2 1 1 "main":1;node 3 1 1 "main":2;node 4 2 1 "main":3;node 5 2 1 "main":4;node 6 2 1 "main":5;node 7 1 1 "main":6;node 8 0 1 "main":7;scope 0 - 0 call;scope 1 0 2 loop;scope 2 1 4 loop;loop 1 11 11;loop 2 1 10;count 1 3 10 10;count 1 7 10 10;count 2 5 0 9;count 2 6 0 9;total 0 1 1;total 1 1 1;total 2 11 11;total 3 10 10;total 4 55 55;total 5 45 45;total 6 45 45;total 7 10 10;total 8 1 1;count-bound 178;path-bound 178 least;end;
a counter that starts at an input | [[input]];frame = "a";offset = 0;size = 32;low = -5;high = 5; => 0 facts 2;node 0 0 0 "main":entry;node 1 0 1 "main":0;node 2 1 1 "main":1;node 3 1 1 "main":2;node 4 0 1 "main":3;scope 0 - 0 call;scope 1 0 2 loop;loop 1 1 11;count 1 3 0 10;total 0 1 1;total 1 1 1;total 2 1 11;total 3 0 10;total 4 1 1;count-bound 23;path-bound 23 least;end;
steps of three | [[input]];frame = "k";offset = 0;size = 32;low = 0;high = 3; => 0 facts 2;node 0 0 0 "main":entry;node 1 0 1 "main":0;node 2 1 1 "main":1;node 3 1 1 "main":2;node 4 0 1 "main":3;scope 0 - 0 call;scope 1 0 2 loop;loop 1 8 11;count 1 3 7 10;total 0 1 1;total 1 1 1;total 2 8 11;total 3 7 10;total 4 1 1;count-bound 23;path-bound 23 least;end;
a division by an input | [[input]];frame = "d";offset = 0;size = 32;low = -2;high = 2; => 0 facts 2;node 0 0 0 "main":entry;node 1 0 1 "main":0;scope 0 - 0 call;total 0 1 1;total 1 1 1;alarm 1 divide;count-bound 1;path-bound 1 least;end;
a local without a value |  => 0 facts 2;node 0 0 0 "main":entry;node 1 0 1 "main":0;scope 0 - 0 call;total 0 1 1;total 1 1 1;alarm 1 uninit;count-bound 1;path-bound 1 least;end;
a store at one of four places | [[input]];frame = "k";offset = 0;size = 32;low = 0;high = 3; => 0 facts 2;node 0 0 0 "main":entry;node 1 0 1 "main":0;node 2 0 1 "main":1;node 3 0 1 "main":3;scope 0 - 0 call;total 0 1 1;total 1 1 1;total 2 0 1;total 3 0 1;pair 0 2 3;count-bound 3;path-bound 2 least;end;
a pointer to one of two arrays | [[input]];frame = "c";offset = 0;size = 32;low = 0;high = 1; => 0 facts 2;node 0 0 0 "main":entry;node 1 0 1 "main":0;node 2 0 1 "main":1;node 3 0 1 "main":2;node 4 0 1 "main":3;scope 0 - 0 call;total 0 1 1;total 1 1 1;total 2 0 1;total 3 0 1;total 4 1 1;pair 0 2 3;alarm 4 bounds;count-bound 4;path-bound 3 least;end;
a case that always comes | [[input]];frame = "x";offset = 0;size = 32;low = 3;high = 3; => 0 facts 2;node 0 0 0 "main":entry;node 1 0 1 "main":0;node 2 0 1 "main":1;node 3 0 1 "main":2;scope 0 - 0 call;dead 3;total 0 1 1;total 1 1 1;total 2 1 1;count-bound 2;path-bound 2 least;end;"#;

#[test]
fn merging_may_lose_nothing(rt: HostRuntime) -> Result<(), Fail> {
    hold(rt.alloc(), MERGED)
}

// A loop that counts to an input: options and the input's range. The turns are exactly so many, one too few, and
// more. Of one value the report is that of one run. A range that goes on past the greatest word comes round to the
// least. All words of 32 bits are too many for the turns.
const COUNTED: &str = r#"analyse a.alf --inputs i.toml $0
a.alf alf - | i n | i=0 @H { switch { s_lt 32 *i *n } { target '1 @B } { default @E } } @B i=i+1 ^H @E .
i.toml text [[input]];frame="n";offset=0;size=32;$1

--turns 24 | low=0;high=10 => 0 facts 2;node 0 0 0 "main":entry;node 1 0 1 "main":0;node 2 1 1 "main":1;node 3 1 1 "main":2;node 4 0 1 "main":3;scope 0 - 0 call;scope 1 0 2 loop;loop 1 1 11;count 1 3 0 10;total 0 1 1;total 1 1 1;total 2 1 11;total 3 0 10;total 4 1 1;count-bound 23;path-bound 23 least;end;
--turns 23 | low=0;high=10 => 3 unbounded 0 "main":entry;
--turns 25 | low=0;high=10 => 0 facts 2;node 0 0 0 "main":entry;node 1 0 1 "main":0;node 2 1 1 "main":1;node 3 1 1 "main":2;node 4 0 1 "main":3;scope 0 - 0 call;scope 1 0 2 loop;loop 1 1 11;count 1 3 0 10;total 0 1 1;total 1 1 1;total 2 1 11;total 3 0 10;total 4 1 1;count-bound 23;path-bound 23 least;end;
--turns 1000000 | low=0;high=10 => 0 facts 2;node 0 0 0 "main":entry;node 1 0 1 "main":0;node 2 1 1 "main":1;node 3 1 1 "main":2;node 4 0 1 "main":3;scope 0 - 0 call;scope 1 0 2 loop;loop 1 1 11;count 1 3 0 10;total 0 1 1;total 1 1 1;total 2 1 11;total 3 0 10;total 4 1 1;count-bound 23;path-bound 23 least;end;
--merge none --turns 34 | low=0;high=10 => 0 facts 2;node 0 0 0 "main":entry;node 1 0 1 "main":0;node 2 1 1 "main":1;node 3 1 1 "main":2;node 4 0 1 "main":3;scope 0 - 0 call;scope 1 0 2 loop;loop 1 1 11;count 1 3 0 10;total 0 1 1;total 1 1 1;total 2 1 11;total 3 0 10;total 4 1 1;count-bound 23;path-bound 23 least;end;
--merge none --turns 33 | low=0;high=10 => 3 unbounded 0 "main":entry;
 | low=3;high=3 => 0 facts 2;node 0 0 0 "main":entry;node 1 0 1 "main":0;node 2 1 1 "main":1;node 3 1 1 "main":2;node 4 0 1 "main":3;scope 0 - 0 call;scope 1 0 2 loop;loop 1 4 4;count 1 3 3 3;total 0 1 1;total 1 1 1;total 2 4 4;total 3 3 3;total 4 1 1;count-bound 9;path-bound 9 least;end;
--merge none | low=3;high=3 => 0 facts 2;node 0 0 0 "main":entry;node 1 0 1 "main":0;node 2 1 1 "main":1;node 3 1 1 "main":2;node 4 0 1 "main":3;scope 0 - 0 call;scope 1 0 2 loop;loop 1 4 4;count 1 3 3 3;total 0 1 1;total 1 1 1;total 2 4 4;total 3 3 3;total 4 1 1;count-bound 9;path-bound 9 least;end;
--turns 10 | low=3;high=3 => 0 facts 2;node 0 0 0 "main":entry;node 1 0 1 "main":0;node 2 1 1 "main":1;node 3 1 1 "main":2;node 4 0 1 "main":3;scope 0 - 0 call;scope 1 0 2 loop;loop 1 4 4;count 1 3 3 3;total 0 1 1;total 1 1 1;total 2 4 4;total 3 3 3;total 4 1 1;count-bound 9;path-bound 9 least;end;
--turns 9 | low=3;high=3 => 3 unbounded 0 "main":entry;
 | low=-7;high=-7 => 0 facts 2;node 0 0 0 "main":entry;node 1 0 1 "main":0;node 2 1 1 "main":1;node 3 1 1 "main":2;node 4 0 1 "main":3;scope 0 - 0 call;scope 1 0 2 loop;loop 1 1 1;dead 3;total 0 1 1;total 1 1 1;total 2 1 1;total 4 1 1;count-bound 3;path-bound 3 least;end;
 | low=-7;high=0 => 0 facts 2;node 0 0 0 "main":entry;node 1 0 1 "main":0;node 2 1 1 "main":1;node 3 1 1 "main":2;node 4 0 1 "main":3;scope 0 - 0 call;scope 1 0 2 loop;loop 1 1 1;dead 3;total 0 1 1;total 1 1 1;total 2 1 1;total 4 1 1;count-bound 3;path-bound 3 least;end;
 | low=-2147483648;high=0 => 0 facts 2;node 0 0 0 "main":entry;node 1 0 1 "main":0;node 2 1 1 "main":1;node 3 1 1 "main":2;node 4 0 1 "main":3;scope 0 - 0 call;scope 1 0 2 loop;loop 1 1 1;dead 3;total 0 1 1;total 1 1 1;total 2 1 1;total 4 1 1;count-bound 3;path-bound 3 least;end;
 | low=4294967289;high=4294967289 => 0 facts 2;node 0 0 0 "main":entry;node 1 0 1 "main":0;node 2 1 1 "main":1;node 3 1 1 "main":2;node 4 0 1 "main":3;scope 0 - 0 call;scope 1 0 2 loop;loop 1 1 1;dead 3;total 0 1 1;total 1 1 1;total 2 1 1;total 4 1 1;count-bound 3;path-bound 3 least;end;
--turns 1000 | low=-2147483648;high=2147483647 => 3 unbounded 1 "main":1;"#;

#[test]
fn a_loop_is_bounded_by_its_input(rt: HostRuntime) -> Result<(), Fail> {
    hold(rt.alloc(), COUNTED)
}

// Ranges at their limits: all words of 64 bits, and as many rows as there may be.
const WIDE: &str = r#"analyse a.alf --inputs i.toml
a.alf alf - | $0 | $1
i.toml text $2
c.toml text default = 1

y%64 | { switch { s_lt 64 { load 64 &y } { dec_signed 64 0 } } { target '1 @A } { default @B } } @A . @B . | [[input]];frame="y";offset=0;size=64;low=-9223372036854775808;high=9223372036854775807 => 0 facts 2;node 0 0 0 "main":entry;node 1 0 1 "main":0;node 2 0 1 "main":1;node 3 0 1 "main":2;scope 0 - 0 call;total 0 1 1;total 1 1 1;total 2 0 1;total 3 0 1;pair 0 2 3;count-bound 3;path-bound 2 least;end;
a%65536 | . | [[input]];frame="a";offset=0;size=8;count=8192;low=-128;high=127 => 0 facts 2;node 0 0 0 "main":entry;node 1 0 1 "main":0;scope 0 - 0 call;total 0 1 1;total 1 1 1;count-bound 1;path-bound 1 least;end;"#;

#[test]
fn ranges_may_be_as_wide_as_words(rt: HostRuntime) -> Result<(), Fail> {
    hold(rt.alloc(), WIDE)
}

// Inputs, which are read after the graph is made and before costs. Without the option the file is not read.
const REFUSED: &str = r#"analyse a.alf --inputs i.toml
a.alf alf - | i n | i=0 @H { switch { s_lt 32 *i *n } { target '1 @B } { default @E } } @B i=i+1 ^H @E .
i.toml text $0
c.toml text default = 1
--
analyse a.alf --inputs i.toml --costs i.toml
a.alf alf - | i n | i=0 @H { switch { s_lt 32 *i *n } { target '1 @B } { default @E } } @B i=i+1 ^H @E .
i.toml text $0
c.toml text default = 1
--
analyse a.alf --costs i.toml --inputs i.toml --turns 1
a.alf alf - | i n | i=0 @H { switch { s_lt 32 *i *n } { target '1 @B } { default @E } } @B i=i+1 ^H @E .
i.toml text $0
c.toml text default = 1
--
analyse a.alf --turns 4 --merge none
a.alf alf - | i n | i=0 @H { switch { s_lt 32 *i *n } { target '1 @B } { default @E } } @B i=i+1 ^H @E .
i.toml text $0
c.toml text default = 1
=> 0 facts 2;..

[[input]];frame="n";offset=0;size=32;low=11;high=10 => 2 fault 72 range inputs 0;
[[input]];frame="m";offset=0;size=32;low=0;high=10 => 2 fault 73 cell inputs 0;
[[input]];frame="n";offset=0;size=32;lo=0;high=10 => 2 fault 71 key inputs 0;
[[ => 2 fault 70 toml inputs;"#;

#[test]
fn refused_inputs_are_told(rt: HostRuntime) -> Result<(), Fail> {
    hold(rt.alloc(), REFUSED)
}
