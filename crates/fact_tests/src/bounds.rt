//! Path bounds of programs, worked out by hand: the costs of the longest runs.

use crate::tables::hold;
use std::test::Fail;

// Items, costs and facts of a program, and numbers of pivots with the bounds after them.
const BOUNDS: &str =
    r"bound | ; @A ?C |B @B ; ^A @C . | 0 1 1 1 1 | L 1 11 11, C 1 3 10 10, T 0 1 1, T 1 1 1, T 2 11 11, T 3 10 10, T 4 1 1
# a loop of ten turns
1 => 23 least
1000 => 23 least

bound | ?C |B @B ; @C ?E |D @D ; @E . | 0 1 1 1 1 1 | T 0 1 1, T 1 1 1, T 2 0 1, T 3 1 1, T 4 0 1, T 5 1 1, P 0 2 4
# two tests that exclude each other
1 => 4 stopped
1000 => 4 least

bound | ?C |B @B . @C . | 0 1 1 1 | T 0 1 1, T 1 1 1, T 2 0 1, T 3 0 1, P 0 2 3
# a store at one of four places
1000 => 2 least

bound | ?C |B @B ; ^D @C ; @D . | 0 1 1 1 1 | T 0 1 1, T 1 1 1, T 2 0 1, T 3 0 1, T 4 1 1, P 0 2 3, A 4 bounds
# a pointer to one of two arrays
1000 => 3 least";

#[test]
fn a_bound_is_the_cost_of_a_longest_run(rt: HostRuntime) -> Result<(), Fail> {
    hold(rt.alloc(), BOUNDS)
}
