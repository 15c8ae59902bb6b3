//! The facts of whole reports on the traces of their programs.

use crate::tables::hold;
use std::test::Fail;

// A program and a trace, and facts with what is told of them.
const RUNS: &str = r"holds | ; @A ?C |B @B ^A @C . | 0 1 2 3 2 3 2 3 2 3 2 3 2 3 2 3 2 3 2 3 2 3 2 4
# `int i = 0; while (i < 10) i = i + 1;`: ten turns
L 1 11 11 => met
C 1 3 10 10 => met
T 0 1 1 => met
T 1 1 1 => met
T 2 11 11 => met
T 3 10 10 => met
T 4 1 1 => met
# Wider facts, and others.
L 1 11 12 => met
L 1 12 12 => missed
L 1 10 10 => missed
C 1 3 0 9 => missed
C 1 3 0 10 => met
T 3 9 9 => missed
T 3 10 9 => missed
D 4 => missed
D 3 => missed
P 1 2 3 => missed

holds | ; @A ?C |B @B ^A @C .
# the same with at most ten turns, by an input
0 1 2 4 | L 1 1 11, C 1 3 0 10, T 0 1 1, T 1 1 1, T 2 1 11, T 3 0 10, T 4 1 1 => met
0 1 2 3 2 4 | L 1 1 11, C 1 3 0 10, T 0 1 1, T 1 1 1, T 2 1 11, T 3 0 10, T 4 1 1 => met
0 1 2 3 2 3 2 4 | L 1 1 11, C 1 3 0 10, T 0 1 1, T 1 1 1, T 2 1 11, T 3 0 10, T 4 1 1 => met
0 1 2 3 2 3 2 3 2 4 | L 1 1 11, C 1 3 0 10, T 0 1 1, T 1 1 1, T 2 1 11, T 3 0 10, T 4 1 1 => met
0 1 2 3 2 3 2 3 2 3 2 4 | L 1 1 11, C 1 3 0 10, T 0 1 1, T 1 1 1, T 2 1 11, T 3 0 10, T 4 1 1 => met
0 1 2 3 2 3 2 3 2 3 2 3 2 4 | L 1 1 11, C 1 3 0 10, T 0 1 1, T 1 1 1, T 2 1 11, T 3 0 10, T 4 1 1 => met
0 1 2 3 2 3 2 3 2 3 2 3 2 3 2 4 | L 1 1 11, C 1 3 0 10, T 0 1 1, T 1 1 1, T 2 1 11, T 3 0 10, T 4 1 1 => met
0 1 2 3 2 3 2 3 2 3 2 3 2 3 2 3 2 4 | L 1 1 11, C 1 3 0 10, T 0 1 1, T 1 1 1, T 2 1 11, T 3 0 10, T 4 1 1 => met
0 1 2 3 2 3 2 3 2 3 2 3 2 3 2 3 2 3 2 4 | L 1 1 11, C 1 3 0 10, T 0 1 1, T 1 1 1, T 2 1 11, T 3 0 10, T 4 1 1 => met
0 1 2 3 2 3 2 3 2 3 2 3 2 3 2 3 2 3 2 3 2 4 | L 1 1 11, C 1 3 0 10, T 0 1 1, T 1 1 1, T 2 1 11, T 3 0 10, T 4 1 1 => met
0 1 2 3 2 3 2 3 2 3 2 3 2 3 2 3 2 3 2 3 2 3 2 4 | L 1 1 11, C 1 3 0 10, T 0 1 1, T 1 1 1, T 2 1 11, T 3 0 10, T 4 1 1 => met

holds | ; @A ?C |B @B ^A @C . | 0 1 2 3 2 3 2 3 2 3 2 3 2 3 2 3 2 3 2 3 2 3 2 3 2 4
L 1 1 11 => missed
C 1 3 0 10 => missed

holds | ; @A ?F |B @B ; @C ?E |D @D ; @G ; ^C @E ; ^A @F . | 0 1 2 3 4 7 2 3 4 5 6 4 7 2 3 4 5 6 4 5 6 4 7 2 3 4 5 6 4 5 6 4 5 6 4 7 2 3 4 5 6 4 5 6 4 5 6 4 5 6 4 7 2 3 4 5 6 4 5 6 4 5 6 4 5 6 4 5 6 4 7 2 3 4 5 6 4 5 6 4 5 6 4 5 6 4 5 6 4 5 6 4 7 2 3 4 5 6 4 5 6 4 5 6 4 5 6 4 5 6 4 5 6 4 5 6 4 7 2 3 4 5 6 4 5 6 4 5 6 4 5 6 4 5 6 4 5 6 4 5 6 4 5 6 4 7 2 3 4 5 6 4 5 6 4 5 6 4 5 6 4 5 6 4 5 6 4 5 6 4 5 6 4 5 6 4 7 2 8
# `for (i = 0; i < 10; i = i + 1) for (j = 0; j < i; j = j + 1) ..`
L 1 11 11 => met
L 2 1 10 => met
C 1 3 10 10 => met
C 1 7 10 10 => met
C 2 5 0 9 => met
C 2 6 0 9 => met
T 0 1 1 => met
T 1 1 1 => met
T 2 11 11 => met
T 3 10 10 => met
T 4 55 55 => met
T 5 45 45 => met
T 6 45 45 => met
T 7 10 10 => met
T 8 1 1 => met
L 2 2 10 => missed
L 2 1 9 => missed
C 2 5 1 9 => missed
C 2 6 0 8 => missed
T 4 56 99 => missed
P 2 5 6 => missed

holds | ?A |B @A ; @B ?C |D @C ; @D .
# `if (x < 5) s = 1; if (x >= 5) s = s + 2;`: node 2 is the first arm, node 4 the second
0 1 2 3 5 | P 0 2 4 => met
0 1 3 4 5 | P 0 2 4 => met

holds | ?A |B @A ; @B ?C |D @C ; @D . | 0 1 2 3 4 5
P 0 2 4 => missed

holds | ?A |B @A ; @B ?C |D @C ; @D . | 0 1 2 3 5
T 2 0 1 => met

holds | ?A |B @A ; @B ?C |D @C ; @D . | 0 1 3 4 5
T 2 0 1 => met
T 3 1 1 => met";

#[test]
fn facts_of_reports_are_met_by_their_runs(rt: HostRuntime) -> Result<(), Fail> {
    hold(rt.alloc(), RUNS)
}
