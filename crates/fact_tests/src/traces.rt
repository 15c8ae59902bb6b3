//! Facts on traces that are written by hand.

use crate::tables::hold;
use std::test::Fail;

// A program and a trace, and facts with what is told of them.
const TRACES: &str =
    r"holds | ; @A ?F |B @B ; @C ?E |D @D ; @G ; ^C @E ; ^A @F . | 0 1 2 3 4 7 2 3 4 5 6 4 7 2 8
# a loop in a loop: nodes 2 to 7 are the outer one, with header 2, nodes 4 to 6 the inner one, with header 4
# The outer loop turns twice: in the first turn the inner loop does not turn, in the second once.
# The outer loop has one execution, with its header three times.
L 1 3 3 => met
L 1 0 3 => met
L 1 3 4294967295 => met
L 1 0 2 => missed
L 1 4 9 => missed
L 1 4 2 => missed
# The inner one has two, with its header once and twice.
L 2 1 2 => met
L 2 1 1 => missed
L 2 2 2 => missed
L 2 3 3 => missed
# The run is the execution of the outermost scope.
L 0 1 1 => met
L 0 0 0 => missed
# Nodes in executions.
C 1 3 2 2 => met
C 1 7 2 2 => met
C 1 7 1 1 => missed
C 1 2 3 3 => met
C 2 5 0 1 => met
C 2 5 1 1 => missed
C 2 5 0 0 => missed
C 1 5 1 1 => met
C 1 5 0 0 => missed
C 2 7 0 0 => met
C 2 7 1 2 => missed
C 0 4 3 3 => met
# Nodes in the run.
D 6 => missed
D 8 => missed
T 2 3 3 => met
T 2 2 2 => missed
T 2 4 4 => missed
T 4 0 3 => met
T 4 3 9 => met
T 6 1 1 => met
T 6 0 0 => missed
T 0 1 1 => met
# Pairs in an iteration.
P 1 3 7 => missed
P 1 7 3 => missed
P 1 5 7 => missed
P 1 2 6 => missed
P 2 5 6 => missed
P 2 4 7 => met
P 1 3 8 => met
P 0 8 5 => missed
P 2 6 6 => missed
P 2 7 7 => met
# An alarm says nothing of a run.
A 5 divide => met
A 0 pointers => met

holds | ; @A ?F |B @B ?D |C @C ; ^A @D ; ^A @F . | 0 1 2 3 4 2 3 5 2 6
# a loop with header 2 and two ways through it, 4 and 5
# Each way is taken in a turn of its own: one execution has both, and no iteration.
P 1 4 5 => met
P 0 4 5 => missed
P 1 3 5 => missed
C 1 4 1 1 => met
L 1 3 3 => met
# Node 3 stands in the first two iterations, and node 6 in none.
P 1 2 6 => met

holds | ; @A ?F |B @B ?D |C @C ; ^A @D ; ^A @F . | 0 1 2 3
# The end of the trace cuts an execution and its iteration: both count.
L 1 1 1 => met
L 1 2 9 => missed

holds | ; @A ?F |B @B ?D |C @C ; ^A @D ; ^A @F . | 0 1 2 3 4 2 3
L 1 2 2 => met

holds | ; @A ?F |B @B ?D |C @C ; ^A @D ; ^A @F . | 0 1 2 3 4
P 1 3 4 => missed
C 1 5 1 1 => missed

holds | ; @A ?F |B @B ?D |C @C ; ^A @D ; ^A @F . | 0 1
# A scope that is not entered has no execution, so whatever is said of each is so.
L 1 5 9 => met
L 1 9 5 => met
C 1 4 7 7 => met
P 1 4 4 => met
# A node without a place has none: 0 of them.
T 4 0 0 => met
T 4 1 1 => missed
T 4 0 3 => met
D 4 => met

holds | ; @A ?F |B @B ?D |C @C ; ^A @D ; ^A @F . | -
D 0 => met
T 0 1 1 => missed
L 0 1 1 => met

holds | ; @A ?F |B @B ?D |C @C ; ^A @D ; ^A @F . | 3 4 5
# Before a header there is an execution and no iteration. No run has such a trace.
L 1 0 0 => met
P 1 4 5 => met

holds | ; @A ?F |B @B ?D |C @C ; ^A @D ; ^A @F . | 3 4 5 2 4
P 1 4 5 => met

holds | ; @A ?F |B @B ?D |C @C ; ^A @D ; ^A @F . | 0 1
# Facts that name a scope or a node past the last.
L 2 0 1, C 2 0 0 1, C 0 7 0 1, D 7, T 4294967295 0 0, P 2 0 1, P 0 7 1, P 0 1 7 => strange

holds | @A !f ?A |B @B . /f . | 0 1 4 5 2 1 4 5 2 3
# a loop with header 1 that calls f, whose instance is scope 2 with header 4
L 1 2 2 => met
L 2 1 1 => met
L 2 2 2 => missed
C 1 5 2 2 => met
C 2 5 1 1 => met
P 1 2 5 => missed
P 2 4 5 => missed
T 5 2 2 => met";

#[test]
fn facts_are_met_as_counted_by_hand(rt: HostRuntime) -> Result<(), Fail> {
    hold(rt.alloc(), TRACES)
}
