//! One run from given values against a report: `replay`.

use crate::tables::hold;
use std::test::Fail;

// The report's name, lines of it and what stands in their place, perhaps once more, and the values.
const RUNS: &str = r#"replay a.alf r --inputs i.toml --at v.toml
a.alf subject $0
i.toml ranges $0
r plain $0 | $1 | $2 | $3 | $4
v.toml text $5

ten turns, form 1 |  |  |  |  | values = [] => 0 holds cost 23;
ten turns, form 1 |  |  |  |  | values = [1] => 2 fault 71 key values -;
ten turns, form 1 | total 3 10 10; | total 3 9 9; |  |  | values = [] => 4 no fact 13;
ten turns, form 1 | loop 1 11 11; | loop 1 12 12; |  |  | values = [] => 4 no fact 9;
ten turns, form 1 | loop 1 11 11; | loop 1 10 10; |  |  | values = [] => 4 no fact 9;
ten turns, form 1 | loop 1 11 11; | loop 1 12 12; | total 3 10 10; | total 3 9 9; | values = [] => 4 no fact 13;
ten turns, form 1 | loop 1 11 11; | loop 1 12 12; | count-bound 23; | count-bound 22; | values = [] => 4 no fact 9;
ten turns, form 1 | total 4 1 1; | total 4 2 2; |  |  | values = [] => 4 no fact 14;
ten turns, form 1 | loop 1 11 11; | loop 1 11 11;dead 4; | total 4 1 1; |  | values = [] => 4 no fact 10;
ten turns, form 1 | count-bound 23; | count-bound 22; |  |  | values = [] => 4 no count-bound;
ten turns, form 1 | path-bound 23 least; | path-bound 22 least; |  |  | values = [] => 4 no path-bound;
ten turns, form 1 | count-bound 23; | count-bound 22; | path-bound 23 least; | path-bound 22 least; | values = [] => 4 no count-bound;
ten turns, form 1 | total 4 1 1; |  |  |  | values = [] => 4 no shape;
ten turns, form 1 | node 4 0 1 | node 4 0 2 | total 3 10 10; | total 3 9 9; | values = [] => 4 no shape;
ten turns, form 2 |  |  |  |  | values = [] => 0 holds cost 23;
ten turns, form 2 | count 1 3 10 10; | count 1 3 0 9; |  |  | values = [] => 4 no fact 10;
a division |  |  |  |  | values = [0] => 0 holds cost 1;
a division |  |  |  |  | values = [-2] => 0 holds cost 1;
a division |  |  |  |  | values = [3] => 4 no outside 0;
a division |  |  |  |  | values = [-3] => 4 no outside 0;
a division | alarm 1 divide; |  |  |  | values = [0] => 4 no alarm 1 divide;
a division | alarm 1 divide; |  |  |  | values = [2] => 0 holds cost 1;
a division | alarm 1 divide; |  |  |  | values = [3] => 4 no outside 0;
a division | alarm 1 divide; |  | total 1 1 1; | total 1 2 2; | values = [0] => 4 no alarm 1 divide;
a division | alarm 1 divide; |  | total 1 1 1; | total 1 0 0; | values = [0] => 4 no fact 6;
a division | node 1 0 1 | node 1 0 2 |  |  | values = [3] => 4 no shape;
a division |  |  |  |  | values = [0, 0] => 2 fault 71 key values -;
a division |  |  |  |  | values = [true] => 2 fault 71 key values -;
a division |  |  |  |  | values = [0];more = 1 => 2 fault 71 key values -;
a division |  |  |  |  | values = [ => 2 fault 70 toml values;
a case |  |  |  |  | values = [3] => 0 holds cost 2;
a case |  |  |  |  | values = [4] => 4 no outside 0;
a case | dead 3; | dead 2; | total 2 1 1; | total 3 1 1; | values = [3] => 4 no fact 7;
ten turns, form 1 | total 2 11 11; | total 2 5 5; | total 3 10 10; | total 3 4 4; | values = [] => 4 no fact 13;
ten turns, form 1 | total 2 11 11; | total 2 5 5; | total 3 10 10; | total 3 5 5; | values = [] => 4 no fact 12;
ten turns, form 1 | total 4 1 1;count-bound 23;path-bound 23 least; | total 4 0 0;count-bound 22;path-bound 22 least; |  |  | values = [] => 4 no fact 14;
ten turns, form 1 | count-bound 23;path-bound 23 least; | count-bound 23; |  |  | values = [] => 0 holds cost 23;
joined | total 2 0 1; | total 2 0 0; | total 4 0 1; | total 4 0 0; | values = [4] => 4 no fact 11;
joined | total 2 0 1; | total 2 0 0; | total 4 0 1; | total 4 0 0; | values = [5] => 4 no fact 13;
joined | total 2 0 1; | total 2 1 1; | total 4 0 1; | total 4 1 1; | values = [4] => 4 no fact 13;
joined | total 2 0 1; | total 2 1 1; | total 4 0 1; | total 4 1 1; | values = [5] => 4 no fact 11;
joined | total 5 1 1; | total 5 1 1;pair 0 2 4;pair 0 3 5; |  |  | values = [0] => 4 no fact 16;
joined | count-bound 5;path-bound 5 least; | count-bound 4;path-bound 4 least; |  |  | values = [9] => 0 holds cost 4;
joined | count-bound 5;path-bound 5 least; | count-bound 4;path-bound 3 least; |  |  | values = [9] => 4 no path-bound;
joined |  |  |  |  | values = [10] => 4 no outside 0;"#;

#[test]
fn the_first_thing_that_speaks_against_a_report_is_told_of_the_run(
    rt: HostRuntime,
) -> Result<(), Fail> {
    hold(rt.alloc(), RUNS)
}

// Numbers in falling and in rising order, one that is outside first, and one that is outside last.
const NUMBERS: &str = r#"replay a.alf r --inputs i.toml --at v.toml
a.alf subject a sort
i.toml ranges a sort
r report a sort
v.toml text $0

values = [10, 9, 8, 7, 6, 5, 4, 3, 2, 1] => 0 holds cost 183;
values = [1, 2, 3, 4, 5, 6, 7, 8, 9, 10] => 0 holds cost 57;
values = [101, 9, 8, 7, 6, 5, 4, 3, 2, 1] => 4 no outside 0;
values = [10, 9, 8, 7, 6, 5, 4, 3, 2, -101] => 4 no outside 9;
values = [10, 9, 8, 7, 6, 5, 4, 3, 2] => 2 fault 71 key values -;"#;

#[test]
fn numbers_that_are_sorted_cost_no_more_than_the_bound(rt: HostRuntime) -> Result<(), Fail> {
    hold(rt.alloc(), NUMBERS)
}

// A report's name, options and values.
const OTHERS: &str = r#"replay a.alf r --inputs i.toml $1
a.alf subject $0
i.toml ranges $0
r report $0
v.toml text $2

// a report with a certificate is replayed as without
ten turns, form 1 | --at v.toml | values = [] => 0 holds cost 23;
// without values a program has no inputs
ten turns, form 1 |  |  => 0 holds cost 23;
a division |  |  => 2 fault 71 key values -;
// here a file that was not given is empty
a division | --at w.toml |  => 2 fault 71 key values -;


replay a.alf r --inputs i.toml --at w.toml
a.alf subject $0
i.toml ranges $0
r text facts 2;

// the report is read before the values
a division => 2 fault 60 syntax 2 1;"#;

#[test]
fn values_are_read_after_the_report_and_may_be_left_out(rt: HostRuntime) -> Result<(), Fail> {
    hold(rt.alloc(), OTHERS)
}
