//! The response times of all tasks.

ghost use Rattle.std.specs.Prelude.{◌≡◌, Some, None, IfOk, IfErr};
ghost use Rattle.cost_table.specs.Tasks.{AreTasks};
ghost use Rattle.response_time.specs.Responses.{AreResponses, IsFaultOf};
ghost use Rattle.response_time.specs.ScheduleLaws.{FinishWithin};

use crate::fault::RespondFault;
use crate::least::least_response;
use cost_table::Task;
use std::alloc::Global;

// The time, or the number of a task that has none: the answer is one of these two, and takes no memory.
fn time_of(least: Option<u64>, number: u32) -> Result<u64, u32>
    ensures time { IfOk result (λ time. least ≡ Some time) }
    ensures late { IfErr result (λ late. (least ≡ None) × (late ≡ number)) }
{
    match least {
        Some(time) => Ok(time),
        None => Err(number),
    }
}

/// For each task the least solution of its equation, in the order of tasks.
///
/// `Late` exactly where a task has none up to its deadline, with the first such task. Where there are
/// answers, no job of any schedule stays as long as that after its release. Each task takes at most
/// as many turns as its deadline has units, each linear in the tasks.
pub fn respond(alloc: Global, tasks: &[Task]) -> Result<Vec<u64>, RespondFault>
    requires { AreTasks tasks.now }
    ensures times { IfOk result (λ times. AreResponses tasks.now times.items) }
    ensures finished { IfOk result (λ times. FinishWithin tasks.now times.items) }
    ensures fault { IfErr result (IsFaultOf tasks.now) }
{
    let mut times = Vec::new(alloc);
    for (index, task) in tasks.iter().enumerate() {
        match time_of(least_response(tasks, task), index as u32) {
            Ok(time) => times.push(time)?,
            Err(late) => return Err(RespondFault::Late(late)),
        }
    }
    Ok(times)
}
