//! `tasks`: response times, tasks that are late, and tasks files that are refused.

use crate::tables::hold;
use std::test::Fail;

// A tasks file, where a semicolon stands for the end of a line.
const FILES: &str = r#"tasks t.toml
t.toml text $0

task=[{name="a",cost=1,period=4,deadline=4,priority=1},{name="b",cost=2,period=6,deadline=6,priority=2},{name="c",cost=3,period=12,deadline=12,priority=3}] => 0 response "a" 1;response "b" 3;response "c" 10;
task=[{name="a",cost=1,period=4,deadline=4,priority=1},{name="b",cost=2,period=6,deadline=6,priority=2},{name="c",cost=3,period=12,deadline=9,priority=3}] => 4 no late "c";
task=[{name="a",cost=1,period=4,deadline=4,priority=1},{name="b",cost=2,period=6,deadline=6,priority=2},{name="c",cost=3,period=12,deadline=12,priority=2}] => 2 fault 72 range tasks 2;
 => 0 
[[task]];name="a";period=4;deadline=4;priority=1 => 2 fault 71 key tasks 0;
[[task]];name="a b";cost=4;period=4;deadline=4;priority=0 => 0 response "a b" 4;
[[task]];name="c";cost=3;period=12;deadline=12;priority=3;[[task]];name="a";cost=1;period=4;deadline=4;priority=1;[[task]];name="b";cost=2;period=6;deadline=6;priority=2 => 0 response "c" 10;response "a" 1;response "b" 3;
task=[{name="x",cost=9,period=4,deadline=4,priority=1},{name="y",cost=9,period=4,deadline=4,priority=2}] => 4 no late "x";
task=[{name="x",cost=4,period=4,deadline=4,priority=1},{name="x",cost=1,period=9,deadline=9,priority=2}] => 4 no late "x";
[[ => 2 fault 70 toml tasks;
tasks=[] => 2 fault 71 key tasks -;
// six tasks that leave 9 in 10^14 of the processor, and one of 1 unit, which is told late at once
task=[{name="low",cost=1,period=4294967295,deadline=4294967295,priority=7},{name="a",cost=25,period=101,deadline=101,priority=1},{name="b",cost=15,period=116,deadline=116,priority=2},{name="c",cost=24,period=161,deadline=161,priority=3},{name="d",cost=10,period=177,deadline=177,priority=4},{name="e",cost=9,period=181,deadline=181,priority=5},{name="f",cost=71,period=193,deadline=193,priority=6}] => 4 no late "low";


tasks t.toml
t.toml rows $0

// as many as there may be, and one more; none has a key
64 [[task]]; => 2 fault 71 key tasks 0;
65 [[task]]; => 2 fault 13 limit tasks 65;
// each of 64 tasks waits for those before it once, and the last one up to its deadline
64 [[task]];name="t~";cost=1;period=64;deadline=64;priority=~; => 0 response "t0" 1;response "t1" 2;response "t2" 3;..;response "t62" 63;response "t63" 64;
64 [[task]];name="t~";cost=1;period=63;deadline=63;priority=~; => 4 no late "t63";"#;

#[test]
fn a_tasks_file_has_its_answer(rt: HostRuntime) -> Result<(), Fail> {
    hold(rt.alloc(), FILES)
}

// Words, where there is a file `t.toml` without tasks.
const WORDS: &str = r#"$0
t.toml text 

tasks t.toml => 0 
tasks -- t.toml => 0 
tasks => 1 fault usage;
tasks t.toml t.toml => 1 fault usage;
tasks t.toml --turns 5 => 1 fault usage;
tasks t.toml --root main => 1 fault usage;
tasks -t.toml => 1 fault usage;
task t.toml => 1 fault usage;"#;

#[test]
fn tasks_takes_one_file(rt: HostRuntime) -> Result<(), Fail> {
    hold(rt.alloc(), WORDS)
}
