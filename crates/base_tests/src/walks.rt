//! Walks over tables, what is reached, and ranks and cycles of calls, worked out by hand.

use crate::tables::{hold, number, numbers, part, push_numbers};
use graph_walks::{
    CallFault, call_ranks, find_walk, is_closed, mark_reached, ranked_calls_have_no_cycle,
};
use std::alloc::{AllocError, Global};
use std::test::Fail;

// The rows, with `; ` between two. `none` has none.
fn lists(alloc: Global, rows: &str) -> Result<Vec<Vec<u32>>, AllocError> {
    let mut lists = Vec::new(alloc);
    if rows == "none" {
        return Ok(lists);
    }
    for row in rows.split("; ") {
        lists.push(numbers(alloc, row)?)?;
    }
    Ok(lists)
}

// Which nodes are marked.
fn marks_of(alloc: Global, words: &str) -> Result<Vec<bool>, AllocError> {
    let mut marks = Vec::new(alloc);
    for word in words.split(' ') {
        marks.push(word == "1")?;
    }
    Ok(marks)
}

// The word, and the numbers.
fn listed(alloc: Global, word: &str, numbers: &[u32]) -> Result<String, AllocError> {
    let mut text = String::from_str(alloc, word)?;
    push_numbers(&mut text, numbers)?;
    Ok(text)
}

// The ranks or the cycle of these calls. Want of memory where one is of no function that is there.
fn ranks_of(alloc: Global, calls: &[Vec<u32>]) -> Result<Vec<u32>, CallFault> {
    if !is_closed(calls) || calls.len() > 1000 {
        return Err(CallFault::Memory);
    }
    call_ranks(alloc, calls)
}

/// What is told of the functions that each function calls.
pub fn calls_told(alloc: Global, asked: &str) -> Result<String, AllocError> {
    let found = ranks_of(alloc, &lists(alloc, asked)?);
    match &found {
        Ok(ranks) => listed(alloc, "ranks", ranks),
        Err(CallFault::Cycle(path)) => listed(alloc, "cycle", path),
        Err(CallFault::Memory) => String::from_str(alloc, "memory"),
    }
}

// The functions that each function calls.
static CALLS: &str = "\
14 calls
none => ranks // no functions
-; - => ranks 0 0 // no calls
1; 2; - => ranks 2 1 0 // a chain
-; 0; 1 => ranks 0 1 2 // a chain against the numbers
1 2; 3; 3; - => ranks 3 1 1 0 // a diamond
1 1 1; - => ranks 1 0 // repeated calls
0 => cycle 0 0 // a self call
1; 2; 0 2 => cycle 0 1 2 0 // a self call on a cycle of three
1; 2; 1 => cycle 1 2 1 // a function that only reaches a cycle
2; 2; 3; 1 => cycle 1 2 3 1 // a cycle of three that is entered at its second
3; 2; 1; 4; 3 => cycle 1 2 1 // two cycles
1; 0 2; 1 => cycle 0 1 0 // two cycles that meet
1 1; 0 0 => cycle 0 1 0 // repeated calls
1; 2; 2 => cycle 2 2 // a self call of the last";

#[test]
fn calls_without_a_cycle_are_ranked_and_the_first_cycle_is_told(
    rt: HostRuntime,
) -> Result<(), Fail> {
    ranked_calls_have_no_cycle();
    hold(rt.alloc(), CALLS)
}

// Functions each of which calls all behind it.
fn fan(alloc: Global, count: u32) -> Result<Vec<Vec<u32>>, AllocError> {
    let mut calls = Vec::new(alloc);
    for caller in 0..count {
        let mut callees = Vec::new(alloc);
        for callee in caller + 1..count {
            callees.push(callee)?;
        }
        calls.push(callees)?;
    }
    Ok(calls)
}

// Whether these are the numbers below the count, in order.
fn are_all_below(numbers: &[u32], count: usize) -> bool {
    for (place, number) in numbers.iter().enumerate() {
        if place != *number as usize {
            return false;
        }
    }
    numbers.len() == count
}

#[test]
fn each_function_may_call_all_behind_it(rt: HostRuntime) -> Result<(), Fail> {
    let mut ranks = ranks_of(rt.alloc(), &fan(rt.alloc(), 200)?)?;
    // No other numbers below the count fall along all these calls.
    ranks.reverse();
    if !are_all_below(&ranks, 200) {
        return Err("a rank does not fall along a call".into());
    }
    Ok(())
}

// The walk. Want of memory where the table, the marks and the ends do not fit one another.
fn walk_of(
    alloc: Global,
    table: &[Vec<u32>],
    marks: &[bool],
    from: u32,
    to: u32,
) -> Result<Option<Vec<u32>>, AllocError> {
    if !is_closed(table) || marks.len() != table.len() || from as usize >= table.len() {
        return Err(AllocError);
    }
    find_walk(alloc, table, marks, from, to)
}

/// What is told of a table, of which nodes are marked, and of the ends of a walk.
pub fn walk_told(alloc: Global, asked: &str) -> Result<String, AllocError> {
    let table = lists(alloc, part(asked, " | ", 0))?;
    let marks = marks_of(alloc, part(asked, " | ", 1))?;
    let ends = part(asked, " | ", 2);
    let (from, to) = (number(part(ends, " ", 0)), number(part(ends, " ", 1)));
    match walk_of(alloc, &table, &marks, from, to)? {
        Some(walk) => listed(alloc, "walk", &walk),
        None => String::from_str(alloc, "none"),
    }
}

// The rows of a table, which nodes are marked, and the ends of the walk. In each there is one such walk at most.
static WALKS: &str = "\
9 walk
- | 0 | 0 0 => walk 0 // a node to itself
1; - | 0 0 | 0 1 => walk 0 1 // an edge
1; - | 0 0 | 1 0 => none // no edge
1; 0 2; - | 0 0 0 | 0 2 => walk 0 1 2 // a way round a loop
1 2; 1; 3; - | 0 0 0 0 | 0 3 => walk 0 2 3 // past the end of the first row
1 2; 3; 3; - | 0 1 0 0 | 0 3 => walk 0 2 3 // round a marked node
1; 2; - | 0 1 0 | 0 2 => none // through a marked node alone
1; - | 1 0 | 0 1 => none // from a marked node
1; - | 0 1 | 0 1 => none // to a marked node";

#[test]
fn a_walk_is_found_where_there_is_one(rt: HostRuntime) -> Result<(), Fail> {
    hold(rt.alloc(), WALKS)
}

// Nodes each of which leads to the next, and the last to the first.
fn ring(alloc: Global, count: u32) -> Result<Vec<Vec<u32>>, AllocError> {
    let mut table = Vec::new(alloc);
    for node in 1..count {
        table.push([node].to_vec(alloc)?)?;
    }
    table.push([0].to_vec(alloc)?)?;
    Ok(table)
}

#[test]
fn a_long_walk_takes_no_stack(rt: HostRuntime) -> Result<(), Fail> {
    let table = ring(rt.alloc(), 20_000)?;
    let marks = vec![in rt.alloc(); false; table.len()]?;
    let Some(walk) = walk_of(rt.alloc(), &table, &marks, 0, 19_999)? else {
        return Err("there is no walk".into());
    };
    if !are_all_below(&walk, 20_000) {
        return Err("the walk does not go round the ring".into());
    }
    Ok(())
}

// Marks what the node reaches. Want of memory where the table, the marks and the node do not fit one another.
fn mark(
    alloc: Global,
    table: &[Vec<u32>],
    marks: &mut [bool],
    from: u32,
) -> Result<(), AllocError> {
    if !is_closed(table) || marks.len() != table.len() || from as usize >= table.len() {
        return Err(AllocError);
    }
    mark_reached(alloc, table, marks, from)
}

/// What is told of a table, of which nodes are marked, and of a node.
pub fn reached_told(alloc: Global, asked: &str) -> Result<String, AllocError> {
    let table = lists(alloc, part(asked, " | ", 0))?;
    let mut marks = marks_of(alloc, part(asked, " | ", 1))?;
    mark(alloc, &table, &mut marks, number(part(asked, " | ", 2)))?;
    let mut text = String::from_str(alloc, "marks")?;
    for is_marked in marks.iter() {
        text.push_str(if *is_marked { " 1" } else { " 0" })?;
    }
    Ok(text)
}

// The rows of a table, the marks, and a node.
static REACHED: &str = "\
5 reached
-; - | 0 0 | 1 => marks 0 1 // a node alone
1; 2; 1 | 0 0 0 | 1 => marks 0 1 1 // a loop, and not what leads to it
1 2; 3; 3; -; 0 | 0 0 0 0 0 | 0 => marks 1 1 1 1 0 // both arms
1; 2; - | 0 1 0 | 0 => marks 1 1 0 // not past a marked node
1; - | 1 0 | 0 => marks 1 0 // nothing from a marked node";

#[test]
fn what_a_node_reaches_is_marked(rt: HostRuntime) -> Result<(), Fail> {
    hold(rt.alloc(), REACHED)
}
