//! What is found of one function: the cycle that it is on, or its rank.

ghost use Rattle.std.specs.Prelude.{◌≡◌, ◌<◌, ◌^◌, ◌↔◌, ℕ, length, IsTrue, IfOk, IfNone, IfSome};
ghost use Rattle.graph_walks.specs.Walks.{Reaches};
ghost use Rattle.graph_walks.specs.MarkedNodes.{marked_count};
ghost use Rattle.graph_walks.specs.Calls.{Calls, CallsWithin, IsCycle, calls_of};
ghost use Rattle.graph_walks.specs.Findings.{IsMarking, IsCaller, IsFinding};

use crate::find::find_walk;
use crate::reach::mark_reached;
use std::alloc::{AllocError, Global};

/// What is found of a function.
#[derive(Drop)]
pub enum Finding {
    /// It is on no cycle, and calls lead to so many other functions.
    Rank(u32),
    /// It is on this cycle.
    Cycle(Vec<u32>),
}

/// Marks all to which calls lead from a function, and looks there for a call back to it.
///
/// Takes time linear in functions and calls, and memory linear in functions.
pub fn finding_of(alloc: Global, calls: &[Vec<u32>], function: u32) -> Result<Finding, AllocError>
    requires within { CallsWithin (calls_of calls.now) }
    requires count { length calls.now < 2 ^ 32 }
    requires inside { function < length calls.now }
    ensures { IfOk result (λ finding. IsFinding (calls_of calls.now) function finding) }
{
    let reached = reached_from(alloc, calls, function)?;
    match caller_among(calls, &reached, function) {
        Some(last) => Ok(Finding::Cycle(cycle_through(alloc, calls, function, last)?)),
        None => Ok(Finding::Rank(count_of(&reached) as u32 - 1)),
    }
}

// The function, and all to which calls lead from it.
fn reached_from(alloc: Global, calls: &[Vec<u32>], function: u32) -> Result<Vec<bool>, AllocError>
    requires within { CallsWithin (calls_of calls.now) }
    requires inside { function < length calls.now }
    ensures { IfOk result (λ marks. IsMarking (calls_of calls.now) function marks.items) }
{
    let mut marks = vec![in alloc; false; calls.len()]?;
    mark_reached(alloc, calls, &mut marks, function)?;
    Ok(marks)
}

// The first of the marked functions that calls this one.
fn caller_among(calls: &[Vec<u32>], marks: &[bool], function: u32) -> Option<u32>
    requires count { length calls.now < 2 ^ 32 }
    requires long { length marks.now ≡ length calls.now }
    ensures none { IfNone result ((g : ℕ) → IsCaller (calls_of calls.now) marks.now function g → ⊥) }
    ensures some { IfSome result (λ g. IsCaller (calls_of calls.now) marks.now function g) }
{
    for caller in 0..calls.len() as u32 {
        if marks[caller as usize] && is_call(calls, caller, function) {
            return Some(caller);
        }
    }
    None
}

// Whether the one function calls the other.
fn is_call(calls: &[Vec<u32>], caller: u32, function: u32) -> bool
    requires { caller < length calls.now }
    ensures { IsTrue result ↔ Calls (calls_of calls.now) caller function }
{
    calls[caller as usize].contains(&function)
}

// A walk from the function to one that calls it, and back.
fn cycle_through(
    alloc: Global,
    calls: &[Vec<u32>],
    function: u32,
    last: u32,
) -> Result<Vec<u32>, AllocError>
    requires within { CallsWithin (calls_of calls.now) }
    requires inside { function < length calls.now }
    requires reached { Reaches (Calls (calls_of calls.now)) function last }
    requires call { Calls (calls_of calls.now) last function }
    ensures { IfOk result (λ path. IsCycle (calls_of calls.now) function path.items) }
{
    let clear = vec![in alloc; false; calls.len()]?;
    let Some(mut path) = find_walk(alloc, calls, &clear, function, last)? else {
        unreachable!()
    };
    path.push(function)?;
    Ok(path)
}

// How many are marked.
fn count_of(marks: &[bool]) -> usize
    ensures { result ≡ marked_count marks.now }
{
    marks.iter().filter(|mark| **mark).count()
}
