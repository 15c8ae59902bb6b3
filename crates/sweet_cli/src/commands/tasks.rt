//! `tasks FILE`: the response times of the tasks of a file.

ghost use Rattle.std.specs.Prelude.{◌<◌, length, IfOk};
ghost use Rattle.cost_table.specs.Tasks.{AreTasks, IsTask};
ghost use Rattle.command_plans.specs.Works.{Works, Judges};
ghost use Rattle.sweet_cli.specs.Task.{IsPromised};
ghost use Rattle.sweet_cli.specs.Tasks.{tasks, ResponsesMean, answering};

use answer_texts::{late_line, response_text};
use command_files::tasks_told;
use command_plans::{Stop, Why};
use cost_table::{Task, a_tasks_file_has_one_answer};
use flow_base::Shelf;
use response_time::{
    RespondFault, a_task_set_has_one_answer, every_job_finishes_in_its_response_time, respond,
};
use std::alloc::Global;

/// A line for each task, with its response time.
pub fn tasks<F: Shelf>(alloc: Global, file: &str, shelf: &mut F) -> Result<Vec<u8>, Stop>
    ensures work { Works (answering file.now) (λ text. text.items) (F.state shelf.old) result (F.state shelf.new) }
    ensures promise { IfOk result
        (λ text. IsPromised (tasks file.now) (F.state shelf.old) (F.state shelf.new) text.items) }
{
    // That the tasks are a task set, and that its jobs finish, as the promise needs it.
    a_tasks_file_has_one_answer();
    every_job_finishes_in_its_response_time();
    let text = answering(alloc, file, shelf)?;
    Ok(text)
}

// The order of work.
#[tactic(auto, unfolding(crate::specs::Tasks::answering))]
fn answering<F: Shelf>(alloc: Global, file: &str, shelf: &mut F) -> Result<Vec<u8>, Stop>
    ensures { Works (answering file.now) (λ text. text.items) (F.state shelf.old) result (F.state shelf.new) }
{
    let tasks = tasks_told(alloc, file, shelf)?;
    let times = times_meant(alloc, &tasks)?;
    let text = response_text(alloc, &tasks, &times)?;
    Ok(text)
}

// The response times of the tasks.
fn times_meant(alloc: Global, tasks: &[Task]) -> Result<Vec<u64>, Stop>
    requires { AreTasks tasks.now }
    ensures { Judges (ResponsesMean tasks.now) (λ times. times.items) result }
{
    a_task_set_has_one_answer();
    match respond(alloc, tasks) {
        Ok(times) => Ok(times),
        Err(RespondFault::Late(i)) => match late_line(alloc, task_at(tasks, i)) {
            Ok(line) => Err(Stop::Told(Why::No, line)),
            Err(_) => Err(Stop::Memory),
        },
        Err(RespondFault::Memory) => Err(Stop::Memory),
    }
}

// The task of this number.
fn task_at(tasks: &[Task], i: u32) -> &Task
    requires { i < length tasks.now }
    ensures { IsTask tasks.now i result.now }
{
    &tasks[i as usize]
}
