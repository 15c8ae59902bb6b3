//! One entry of a tasks file.

ghost use Rattle.std.specs.Prelude.{◌≡◌, ◌↔◌, ◌≢◌, pos, All, IfSome, IfNone, IsTrue, string_bytes};
ghost use Rattle.std.specs.Option.{option_map};
ghost use Rattle.std.specs.List.{list_all};
ghost use Rattle.std.specs.BTreeMap.{keys};
ghost use Rattle.toml.specs.View.{table_view, view};
ghost use Rattle.cost_table.specs.TaskFiles.{is_task_key, is_task_top, task_entry, task_members, AreInRange};
ghost use Rattle.cost_table.specs.TaskFiles.{HasNumbers, IsFrom, IsNameByte, IsTaskName};

use crate::keys::{number_at, text_at};
use crate::task_set::Task;
use toml::{Table, Value};

/// What an entry says of its task, beside the name.
#[derive(Clone, Copy)]
pub struct TaskNumbers {
    pub cost: i64,
    pub period: i64,
    pub deadline: i64,
    pub priority: i64,
}

/// The same where each number is in its range.
#[derive(Clone, Copy)]
pub struct Sizes {
    pub cost: u32,
    pub period: u32,
    pub deadline: u32,
    pub priority: u32,
}

// The key is one of an entry of tasks.
fn is_task_key(key: &str) -> bool
    ensures { result ≡ is_task_key key.now }
{
    key == "name" || key == "cost" || key == "period" || key == "deadline" || key == "priority"
}

// Each key is one of an entry of tasks.
fn has_task_keys(table: &Table) -> bool
    ensures { result ≡ list_all (λ key. is_task_key (string_bytes key)) (keys table.now) }
{
    table.keys().all(|key| is_task_key(key.as_str()))
}

// The key is the one that may stand at the top.
fn is_task_top(key: &str) -> bool
    ensures { result ≡ is_task_top key.now }
{
    key == "task"
}

// Each key at the top is the one that may stand there.
pub fn has_task_top(table: &Table) -> bool
    ensures { result ≡ list_all (λ key. is_task_top (string_bytes key)) (keys table.now) }
{
    table.keys().all(|key| is_task_top(key.as_str()))
}

// The name and the numbers of an entry that has its keys.
pub fn task_entry(value: &Value) -> Option<(&str, TaskNumbers)>
    ensures { option_map (λ entry. (entry.0.now, entry.1)) result ≡ task_entry (view value.now) }
{
    match value.as_table() {
        Some(table) => task_members(table),
        None => None,
    }
}

// The same of its table.
#[tactic(auto, using(crate::proofs::Seen::only_keys_all))]
fn task_members(table: &Table) -> Option<(&str, TaskNumbers)>
    ensures { option_map (λ entry. (entry.0.now, entry.1)) result ≡ task_members (table_view table.now) }
{
    if !has_task_keys(table) {
        return None;
    }
    let name = text_at(table, "name")?;
    let cost = number_at(table, "cost")?;
    let period = number_at(table, "period")?;
    let deadline = number_at(table, "deadline")?;
    let priority = number_at(table, "priority")?;
    Some((
        name,
        TaskNumbers {
            cost,
            period,
            deadline,
            priority,
        },
    ))
}

// The number, if it is at least this one and has 32 bits.
fn number_from(least: u32, number: i64) -> Option<u32>
    ensures some { IfSome result (λ n. (number ≡ pos n) × IsFrom least number) }
    ensures none { IfNone result (¬ IsFrom least number) }
{
    if number < i64::from(least) || number > 4294967295 {
        return None;
    }
    Some(number as u32)
}

// The numbers of an entry, if each is in its range.
pub fn sizes_of(numbers: &TaskNumbers) -> Option<Sizes>
    ensures some { IfSome result (λ sizes. HasNumbers numbers.now sizes × AreInRange numbers.now) }
    ensures none { IfNone result (¬ AreInRange numbers.now) }
{
    let cost = number_from(1, numbers.cost)?;
    let period = number_from(1, numbers.period)?;
    let deadline = number_from(1, numbers.deadline)?;
    let priority = number_from(0, numbers.priority)?;
    if deadline > period {
        return None;
    }
    Some(Sizes {
        cost,
        period,
        deadline,
        priority,
    })
}

// The byte may stand in a task's name.
fn is_name_byte(byte: u8) -> bool
    ensures { IsTrue result ↔ IsNameByte byte }
{
    byte >= 32 && byte <= 126 && byte != 34 && byte != 92
}

// The text may be a task's name.
pub fn is_task_name(name: &str) -> bool
    ensures { IsTrue result ↔ IsTaskName name.now }
{
    let bytes = name.as_bytes();
    if bytes.is_empty() || bytes.len() > 64 {
        return false;
    }
    bytes.iter().all(|byte| is_name_byte(*byte))
}

// No task has this priority.
pub fn is_free(tasks: &[Task], priority: u32) -> bool
    ensures { IsTrue result ↔ All (λ task. task.priority ≢ priority) tasks.now }
{
    tasks.iter().all(|task| task.priority != priority)
}
