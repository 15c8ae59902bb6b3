//! Rows that were written out by hand, and verdicts on multipliers.

use crate::tables::hold;
use std::test::Fail;

// The items of a program and its costs, and facts with the rows that they make: the costs, the rows with `=` or `<`,
// the right side, and the terms as a column and a number, and the openings.
const ROWS: &str = r"rows | . | 0 1
# A program that ends at once.
T 0 1 1, T 1 1 1 => costs 0 1;= 1: 0*1;= 0: 0*-1 1*1;< 1: 0*1;< -1: 0*-1;< 1: 1*1;< -1: 1*-1;openings 2-0 4-1

rows | ; @A ?C |B @B ; ^A @C . | 0 7 1 1 1
# A fact of each kind, and alarms at nodes 2 and 4. A loop: edges 0-1, 1-2, 2-3, 2-4, 3-2 and from 4 to the end. Its header is node 2.
L 1 11 12, C 1 3 9 10, D 1, D 4, T 0 1 1, T 2 11 12, P 1 3 4, A 2 divide, A 4 divide, A 4 uninit => costs 0 7 1 1 1 1 1 1;= 1: 0*1;= 0: 0*-1 1*1;= 0: 1*-1 2*1 3*1 4*-1 6*1;= 0: 2*-1 4*1;= 0: 3*-1 5*1 7*1;< 0: 1*-12 2*1 3*1 6*1;< 0: 1*11 2*-1 3*-1 6*-1;< 0: 1*1;< 0: 5*1 7*1;< 1: 0*1;< -1: 0*-1;< 12: 2*1 3*1 6*1;< -11: 2*-1 3*-1 6*-1;< 0: 2*-1 3*-1 4*1 5*1 6*-1 7*1;< 0: 1*-10 4*1;< 0: 1*9 4*-1;openings 9-0 7-1 11-2 8-5

rows | @A ^A | 0 5
# A block that jumps to itself: the edge from node 1 to node 1 cancels.
T 0 1 1, T 1 0 9 => costs 0 5;= 1: 0*1;= 0: 0*-1;< 1: 0*1;< -1: 0*-1;< 9: 1*1;< 0: 1*-1;openings 2-0 4-1";

#[test]
fn facts_make_the_rows_that_are_written_out(rt: HostRuntime) -> Result<(), Fail> {
    hold(rt.alloc(), ROWS)
}

// How often a pair is told, and how many rows there are then.
const PAIRS: &str = r"pairs | ; @A ?C |B @B ; ^A @C . | 0 1 1 1 1 | P 1 3 4
1 => 6
127 => 132
128 => 133
129 => 133
130 => 133";

#[test]
fn the_129th_pair_has_no_row(rt: HostRuntime) -> Result<(), Fail> {
    hold(rt.alloc(), PAIRS)
}

// A row, and the sum of what it has at each column, 0 included.
const SUMS: &str =
    r"sum | ; @A ?C |B @B ; ^A @C . | 0 7 1 1 1 | L 1 11 12, C 1 3 9 10, D 1, D 4, T 0 1 1, T 2 11 12, P 1 3 4, A 2 divide, A 4 divide, A 4 uninit
5 => -9";

#[test]
fn coefficients_are_those_of_terms(rt: HostRuntime) -> Result<(), Fail> {
    hold(rt.alloc(), SUMS)
}

// Multipliers, one for each row, and a bound, with the verdict. The facts are those of a loop of ten turns; rows 9, 11,
// 13 and 15 are the greatest totals of nodes 1 to 4.
const VERDICTS: &str =
    r"verdict | ; @A ?C |B @B ; ^A @C . | 0 1 1 1 1 | L 1 11 11, T 0 1 1, T 1 1 1, T 2 11 11, T 3 10 10, T 4 1 1
0 0 0 0 0 0 0 0 0 1 0 1 0 1 0 1 0 | 23 => Holds(23)
0 0 0 0 0 0 0 0 0 1 0 1 0 1 0 1 0 | 22 => Bound(23)
0 0 0 0 0 0 0 0 0 -1 0 1 0 1 0 1 0 | 23 => Negative(9)
0 0 0 0 0 0 0 0 0 0 0 1 0 1 0 1 0 | 23 => Column(1)
0 0 0 0 0 0 0 0 0 170141183460469231731687303715884105706 0 1 0 1 0 1 0 | 0 => Wide(15)";

#[test]
fn ten_turns_cost_23(rt: HostRuntime) -> Result<(), Fail> {
    hold(rt.alloc(), VERDICTS)
}
