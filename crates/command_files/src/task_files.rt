//! The tasks file that a command reads.

ghost use Rattle.std.specs.Prelude.{IfOk};
ghost use Rattle.cost_table.specs.Tasks.{AreTasks};
ghost use Rattle.command_plans.specs.Works.{Works, Judges};
ghost use Rattle.command_files.specs.TaskFiles.{TasksMean, tasks_told};

use answer_texts::table_line;
use command_plans::{Role, Stop, Why, read_file};
use cost_table::{Task, a_tasks_file_has_one_answer, tasks as tasks_of};
use flow_base::Shelf;
use program_files::{MOST_BYTES_OF_A_FILE, TOO_LONG};
use std::alloc::Global;

/// The tasks of the file.
#[tactic(auto, unfolding(crate::specs::TaskFiles::tasks_told))]
pub fn tasks_told<F: Shelf>(alloc: Global, file: &str, shelf: &mut F) -> Result<Vec<Task>, Stop>
    ensures work { Works (tasks_told file.now) (λ tasks. tasks.items) (F.state shelf.old) result (F.state shelf.new) }
    ensures keep { IfOk result (λ tasks. AreTasks tasks.items) }
{
    let bytes = read_file(
        alloc,
        shelf,
        Role::Tasks,
        file,
        MOST_BYTES_OF_A_FILE,
        TOO_LONG,
    )?;
    tasks_meant(alloc, &bytes)
}

// The tasks that the bytes mean.
fn tasks_meant(alloc: Global, bytes: &[u8]) -> Result<Vec<Task>, Stop>
    ensures means { Judges (TasksMean bytes.now) (λ tasks. tasks.items) result }
    ensures keep { IfOk result (λ tasks. AreTasks tasks.items) }
{
    a_tasks_file_has_one_answer();
    match tasks_of(alloc, bytes) {
        Ok(tasks) => Ok(tasks),
        Err(fault) => match table_line(alloc, "tasks", &fault) {
            Ok(line) => Err(Stop::Told(Why::Source, line)),
            Err(_) => Err(Stop::Memory),
        },
    }
}
