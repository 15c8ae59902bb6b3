//! Shares of the processor.

ghost use Rattle.std.specs.Prelude.{◌≡◌, ◌<◌, ◌≤◌, ◌*◌, ◌↔◌, IsTrue};
ghost use Rattle.std.specs.List.{All};
ghost use Rattle.cost_table.specs.Tasks.{IsInRange};
ghost use Rattle.response_time.specs.Shares.{share_of, IsCrowdedOut};

use cost_table::Task;

// All of the processor, in the unit of shares: as fine as 128 bits hold a cost of them.
const WHOLE: u128 = 79228162514264337593543950336;

/// Whether the tasks of higher priority leave too little of the processor for the task, by their
/// shares: then it has no response time up to its deadline. A no tells nothing.
///
/// Each has a share, its cost over its period, rounded down to a whole number of units. Where the
/// shares make up all of the processor, or so nearly that the cost does not fit up to the deadline,
/// the search for a solution would take as many turns as the deadline has units.
pub fn is_crowded_out(tasks: &[Task], task: &Task) -> bool
    requires ranges { All IsInRange tasks.now }
    requires range { IsInRange task.now }
    ensures yes { IsTrue result → IsCrowdedOut tasks.now task.now }
    ensures only { IsCrowdedOut tasks.now task.now → IsTrue result }
{
    let mut free = WHOLE;
    for other in tasks {
        let share = share_of(other, task.priority);
        if share >= free {
            return true;
        }
        free -= share;
    }
    is_too_little(free, task.deadline, task.cost)
}

// A share that is free up to the deadline is less than the cost.
fn is_too_little(free: u128, deadline: u32, cost: u32) -> bool
    requires { free ≤ 79228162514264337593543950336 }
    ensures { IsTrue result ↔ (deadline * free < cost * 79228162514264337593543950336) }
{
    u128::from(deadline) * free < u128::from(cost) * WHOLE
}

// The share of a task whose priority is higher than this one.
fn share_of(other: &Task, priority: u32) -> u128
    requires { IsInRange other.now }
    ensures { result ≡ share_of priority other.now }
{
    if other.priority < priority {
        u128::from(other.cost) * WHOLE / u128::from(other.period)
    } else {
        0
    }
}
