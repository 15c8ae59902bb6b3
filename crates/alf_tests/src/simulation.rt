//! A simulation of a task set, unit by unit.

use cost_table::Task;
use std::alloc::{AllocError, Global};

// A task in the simulation: what is left of its jobs, what was done of them, and when its first job ended.
#[derive(Clone, Copy)]
struct Running {
    cost: u64,
    period: u64,
    priority: u32,
    left: u64,
    done: u64,
    end: u64,
}

// When the first job of each task ends, where all tasks are released at once, each then as soon as its period allows,
// and each job takes its whole cost. 0 where it has not ended by the time 1,000.
pub fn first_ends(alloc: Global, tasks: &[Task]) -> Result<Vec<u64>, AllocError> {
    let mut running = Vec::new(alloc);
    for task in tasks {
        running.push(Running {
            cost: u64::from(task.cost),
            period: u64::from(task.period),
            priority: task.priority,
            left: 0,
            done: 0,
            end: 0,
        })?;
    }
    let all = running.as_mut_slice();
    for time in 0..1000 {
        release(all, time);
        run(all, time + 1);
    }
    let mut ends = Vec::new(alloc);
    for one in all.iter() {
        ends.push(one.end)?;
    }
    Ok(ends)
}

// Releases the tasks whose time has come.
fn release(all: &mut [Running], time: u64) {
    for one in all.iter_mut() {
        if time.checked_rem(one.period) == Some(0) {
            one.left = one.left.saturating_add(one.cost);
        }
    }
}

// Does a unit of work of the task of the highest priority that has some, which ends at this time.
fn run(all: &mut [Running], end: u64) {
    let Some(first) = highest(all) else {
        return;
    };
    for one in all.iter_mut() {
        if one.priority == first {
            one.left = one.left.saturating_sub(1);
            one.done = one.done.saturating_add(1);
            if one.done == one.cost {
                one.end = end;
            }
        }
    }
}

// The highest priority of those with work left.
fn highest(all: &[Running]) -> Option<u32> {
    let mut found: Option<u32> = None;
    for one in all {
        let higher = match found {
            Some(priority) => one.priority < priority,
            None => true,
        };
        if one.left > 0 && higher {
            found = Some(one.priority);
        }
    }
    found
}
