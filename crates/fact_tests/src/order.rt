//! The order of facts.

use crate::tables::hold;
use std::test::Fail;

// Facts in the order of their lines, each of which is held against each.
const LINES: &str = r"order
L 1 1 10, L 1 1 11, L 1 2 3, L 10 0 0, C 0 9 9 9, C 1 3 0 10, C 1 7 0 0, C 1 7 0 1, D 2, D 10, T 0 1 1, T 1 0 4294967295, T 1 1 1, P 0 2 4, P 1 0 1, P 1 1 0, A 1 divide, A 1 uninit, A 1 mixed, A 1 bounds, A 1 dead, A 1 kind, A 1 pointers, A 2 divide => 24 ascend";

#[test]
fn lines_ascend(rt: HostRuntime) -> Result<(), Fail> {
    hold(rt.alloc(), LINES)
}
