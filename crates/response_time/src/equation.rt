//! The right side of a task's equation.

ghost use Rattle.std.specs.Prelude.{◌≡◌, ◌<◌, ◌≤◌, ◌*◌, ◌^◌, IfSome, IfNone};
ghost use Rattle.std.specs.List.{All};
ghost use Rattle.cost_table.specs.Tasks.{IsInRange};
ghost use Rattle.response_time.specs.Responses.{demand, interference};

use cost_table::Task;

/// The most work that the jobs of the task and of those of higher priority may bring in a window of
/// this length, the task's with one job. `None` exactly where this is above the limit.
///
/// The sum stops once it is above the limit, so that it always fits.
pub fn demand_within(tasks: &[Task], task: &Task, window: u64, limit: u32) -> Option<u64>
    requires ranges { All IsInRange tasks.now }
    requires window { window ≤ limit }
    requires cost { task.now.cost ≤ limit }
    ensures some { IfSome result (λ work. work ≡ demand tasks.now task.now window) }
    ensures within { IfSome result (λ work. work ≤ limit) }
    ensures none { IfNone result (limit < demand tasks.now task.now window) }
{
    let mut work = u64::from(task.cost);
    for other in tasks {
        work += interference(other, task.priority, window);
        if work > u64::from(limit) {
            return None;
        }
    }
    Some(work)
}

// The most work that the task may bring in a window of this length, where its priority is higher than
// this one.
fn interference(other: &Task, priority: u32, window: u64) -> u64
    requires range { IsInRange other.now }
    requires window { window < 2 ^ 32 }
    ensures value { result ≡ interference priority window other.now }
    ensures bounded { result ≤ 4294967295 * 4294967295 }
{
    if other.priority < priority {
        u64::from(other.cost) * window.div_ceil(u64::from(other.period))
    } else {
        0
    }
}
