//! The tasks of a tasks file.

ghost use Rattle.std.specs.Prelude.{◌≡◌, ◌≢◌, ◌≤◌, ◌++◌, length, map, IfOk, IfErr, OnOk};
ghost use Rattle.std.specs.Option.{option_map};
ghost use Rattle.toml.specs.View.{table_view, view};
ghost use Rattle.cost_table.specs.declared.fault.TableFault.TheVariants.{Memory};
ghost use Rattle.cost_table.specs.Entries.{AllRight, IsFirstFault};
ghost use Rattle.cost_table.specs.Tasks.{AreTasks};
ghost use Rattle.cost_table.specs.TaskFiles.{IsRightTask, IsWrongTask, MeansTasks, RefusesTasks, entry_tasks};
ghost use Rattle.cost_table.specs.TaskFiles.{task_entries, task_judging, tasks_in};

use crate::document::document;
use crate::fault::TableFault;
use crate::keys::{entries_at, nth};
use crate::task_entry::{has_task_top, is_free, is_task_name, sizes_of, task_entry};
use crate::task_set::Task;
use flow_base::{Name, Which};
use std::alloc::Global;
use toml::{Table, Value};

/// The tasks of a tasks file: those of its entries, in order.
///
/// `[[task]]` entries have `name`, a text, and `cost`, `period`, `deadline` and `priority`, whole
/// numbers. More than 64 entries are refused before any of them is looked at.
///
/// Takes time linear in the file.
pub fn tasks(alloc: Global, bytes: &[u8]) -> Result<Vec<Task>, TableFault>
    ensures means { IfOk result (λ tasks. MeansTasks bytes.now tasks.items) }
    ensures keep { IfOk result (λ tasks. AreTasks tasks.items) }
    ensures refused { IfErr result (λ fault. fault ≢ Memory → RefusesTasks bytes.now fault) }
{
    let table = match document(alloc, bytes) {
        Ok(table) => table,
        Err(fault) => return Err(fault),
    };
    let Some(values) = entries(&table) else {
        return Err(TableFault::Key(None));
    };
    if values.len() > 64 {
        return Err(TableFault::Limit(Which::Tasks, 65));
    }
    match all_tasks(alloc, values) {
        Ok(tasks) => Ok(tasks),
        Err(fault) => Err(fault),
    }
}

// The entries, if only `task` stands at the top.
#[tactic(auto, using(crate::proofs::Seen::only_keys_all))]
fn entries(table: &Table) -> Option<&[Value]>
    ensures { option_map (λ values. map view values.now) result ≡ task_entries (table_view table.now) }
{
    if has_task_top(table) {
        entries_at(table, "task")
    } else {
        None
    }
}

// The tasks of all entries.
fn all_tasks(alloc: Global, values: &[Value]) -> Result<Vec<Task>, TableFault>
    requires { length values.now ≤ 64 }
    ensures right { OnOk result (AllRight task_judging (map view values.now)) }
    ensures all { IfOk result (λ tasks. tasks.items ≡ tasks_in (map view values.now)) }
    ensures first { IfErr result (λ fault. fault ≢ Memory → IsFirstFault task_judging (map view values.now) fault) }
{
    let count = values.len() as u32;
    let mut tasks = Vec::new(alloc);
    for place in 0..count {
        if let Err(fault) = add_task(alloc, nth(values, place), place, &mut tasks) {
            return Err(fault);
        }
    }
    Ok(tasks)
}

// Adds the task of an entry.
fn add_task(
    alloc: Global,
    value: &Value,
    place: u32,
    tasks: &mut Vec<Task>,
) -> Result<(), TableFault>
    ensures right { OnOk result (IsRightTask tasks.old.items (view value.now)) }
    ensures more { OnOk result (tasks.new.items ≡ tasks.old.items ++ entry_tasks (view value.now)) }
    ensures wrong { IfErr result (λ fault. fault ≢ Memory → IsWrongTask tasks.old.items place (view value.now) fault) }
{
    let Some((name, numbers)) = task_entry(value) else {
        return Err(TableFault::Key(Some(place)));
    };
    if !is_task_name(name) {
        return Err(TableFault::Range(place));
    }
    let Some(sizes) = sizes_of(&numbers) else {
        return Err(TableFault::Range(place));
    };
    if !is_free(tasks, sizes.priority) {
        return Err(TableFault::Range(place));
    }
    let Ok(name) = Name::new(alloc, name.as_bytes()) else {
        return Err(TableFault::Memory);
    };
    let task = Task {
        name,
        cost: sizes.cost,
        period: sizes.period,
        deadline: sizes.deadline,
        priority: sizes.priority,
    };
    let Ok(()) = tasks.push(task) else {
        return Err(TableFault::Memory);
    };
    Ok(())
}
