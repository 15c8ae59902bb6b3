//! Whole reports: cut short, printed again, and of the two forms.

use crate::tables::hold;
use std::test::Fail;

// The number of a line, and of each of its bytes the column that is told of the report which is cut short before it.
const CUTS: &str = r"cut | first
0 => 1 1 1 1 1 6 7 8
1 => 1 1 1 1 5 6 7 8 9 10 11 12 12 12 12 12 12 12 12 12 12 12 12 24
2 => 1 1 1 1 5 6 7 8 9 10 11 12 12 12 12 12 12 12 12 20
3 => 1 1 1 1 5 6 7 8 9 10 11 12 12 12 12 12 12 12 12 20
4 => 1 1 1 1 5 6 7 8 9 10 11 12 12 12 12 12 12 12 12 20
5 => 1 1 1 1 5 6 7 8 9 10 11 12 12 12 12 12 12 12 12 20
6 => 1 1 1 1 1 6 7 8 9 10 11 12 13 13 13 13 17
7 => 1 1 1 1 1 6 7 8 9 10 11 12 13 13 13 13 17
8 => 1 1 1 1 5 6 7 8 9 10 11 11 13
9 => 1 1 1 1 1 6 7 8 9 10 11 12
10 => 1 1 1 1 1 6 7 8 9 10 11 12
11 => 1 1 1 1 1 6 7 8 9 10 11 12 12 14
12 => 1 1 1 1 1 6 7 8 9 10 11 12 12 14
13 => 1 1 1 1 1 6 7 8 9 10 11 12
14 => 1 1 1 1 1 1 1 1 1 1 1 12 13 14 15
15 => 1 1 1 1 1 1 1 1 1 1 11 12 13 14 15 15 15 15 15 20
16 => 1 1 1 1 5
17 => 1 1 1 1 5 6 7
18 => 1 1 1 1 5 6 7
19 => 1 1 1 1 5 6 7
20 => 1 1 1 1 5 6 7
21 => 1 1 1 1 5 6 7
22 => 1 1 1 1 5 6 7
23 => 1 1 1 1 5 6 7
24 => 1 1 1 1 5 6 7
25 => 1 1 1 1 5 6 7
26 => 1 1 1 1 5 6 7
27 => 1 1 1 1 5 6 7
28 => 1 1 1 1 5 6 7
29 => 1 1 1 1 5 6 7
30 => 1 1 1 1 5 6 7
31 => 1 1 1 1 5 6 7
32 => 1 1 1 1 5 6 7
33 => 1 1 1 1 5 6 7
34 => 1 1 1 1 5 6 7
35 => 1 1 1 1 5 6 7
36 => 1 1 1 1 5 6 7
37 => 1 1 1 1 5 6 7
38 => 1 1 1 1 5 6 7
39 => 1 1 1 1 5 6 7
40 => 1 1 1 1 5 6 7
41 => 1 1 1 1 1 6 7 8
42 => 1 1 1 4 5 6
43 => 1 1 1 4 5 6
44 => 1 1 1 4 5 6
45 => 1 1 1 4 5 6
46 => 1 1 1 4 5 6
47 => 1 1 1 4 5 6
48 => 1 1 1 4 5 6
49 => 1 1 1 4 5 6
50 => 1 1 1 4 5 6
51 => 1 1 1 4 5 6
52 => 1 1 1 4 5 6
53 => 1 1 1 4 5 6
54 => 1 1 1 4 5 6
55 => 1 1 1 4 5 6
56 => 1 1 1 4 5 6
57 => 1 1 1 4 5 6
58 => 1 1 1 4 5 6
59 => 1 1 1 4";

#[test]
fn a_report_that_is_cut_short_is_told(rt: HostRuntime) -> Result<(), Fail> {
    hold(rt.alloc(), CUTS)
}

// A report, its form, how many nodes and facts it has, its count bound, and whether its text is printed again.
const PRINTED: &str = "\
print
first => 1 5 6 23 true";

#[test]
fn a_report_is_printed_as_it_was_read(rt: HostRuntime) -> Result<(), Fail> {
    hold(rt.alloc(), PRINTED)
}

// A count in a report of form 1.
const COUNTED: &str = "\
line | first
8 | loop 1 11 11;count 1 3 10 10; => syntax 10 1";

#[test]
fn a_count_stands_in_form_2_alone(rt: HostRuntime) -> Result<(), Fail> {
    hold(rt.alloc(), COUNTED)
}
