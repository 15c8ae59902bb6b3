//! The least solution of a task's equation.

ghost use Rattle.std.specs.Prelude.{◌≡◌, ◌<◌, ◌≤◌, ℕ, IfSome, IfNone};
ghost use Rattle.std.specs.List.{All};
ghost use Rattle.cost_table.specs.Tasks.{IsInRange};
ghost use Rattle.response_time.specs.Responses.{IsResponse, IsLate};

use crate::equation::demand_within;
use crate::shares::is_crowded_out;
use cost_table::Task;

/// The least solution of the task's equation, or `None` where there is none up to its deadline.
///
/// Each turn puts the right side of the equation in the place of the candidate, which rises until
/// both sides are the same: at most as many turns as the deadline has units.
pub fn least_response(tasks: &[Task], task: &Task) -> Option<u64>
    requires ranges { All IsInRange tasks.now }
    requires range { IsInRange task.now }
    ensures some { IfSome result (λ time. IsResponse tasks.now task.now time) }
    ensures none { IfNone result (IsLate tasks.now task.now) }
{
    if is_crowded_out(tasks, task) {
        return None;
    }
    let mut candidate = u64::from(task.cost);
    while candidate <= u64::from(task.deadline) {
        let Some(work) = demand_within(tasks, task, candidate, task.deadline) else {
            return None;
        };
        if work == candidate {
            return Some(candidate);
        }
        candidate = work;
    }
    None
}
