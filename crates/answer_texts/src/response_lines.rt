//! Lines that tell response times.

ghost use Rattle.std.specs.Prelude.{◌≡◌, ◌++◌, IfOk, OnOk};
ghost use Rattle.std.specs.List.{flat_map, zip};
ghost use Rattle.answer_texts.specs.ResponseText.{late_line, response_line, response_text};

use cost_table::Task;
use program_files::push_quoted;
use std::alloc::{AllocError, Global};

/// A line for each task and its time, as many as there are of both.
pub fn response_text(alloc: Global, tasks: &[Task], times: &[u64]) -> Result<Vec<u8>, AllocError>
    ensures { IfOk result (λ text. text.items ≡ response_text tasks.now times.now) }
{
    let mut text = Vec::new(alloc);
    push_responses(&mut text, alloc, tasks, times)?;
    Ok(text)
}

/// The line of a task that is late.
pub fn late_line(alloc: Global, task: &Task) -> Result<Vec<u8>, AllocError>
    ensures { IfOk result (λ line. line.items ≡ late_line task.now) }
{
    let mut line = Vec::new(alloc);
    line.extend_from_slice(b"no late ")?;
    push_quoted(&mut line, task.name.bytes())?;
    line.push(b'\n')?;
    Ok(line)
}

// Adds the lines of these tasks and times.
fn push_responses(
    text: &mut Vec<u8>,
    alloc: Global,
    tasks: &[Task],
    times: &[u64],
) -> Result<(), AllocError>
    ensures { OnOk result (text.new.items ≡ text.old.items ++ flat_map response_line (zip tasks.now times.now)) }
{
    let Some((task, tasks)) = tasks.split_first() else {
        return Ok(());
    };
    let Some((time, times)) = times.split_first() else {
        return Ok(());
    };
    push_response(text, alloc, task, *time)?;
    push_responses(text, alloc, tasks, times)
}

// Adds the line of a task and its time.
fn push_response(
    text: &mut Vec<u8>,
    alloc: Global,
    task: &Task,
    time: u64,
) -> Result<(), AllocError>
    ensures { OnOk result (text.new.items ≡ text.old.items ++ response_line (task.now, time)) }
{
    text.extend_from_slice(b"response ")?;
    push_quoted(text, task.name.bytes())?;
    let rest = format!(in alloc; " {time}\n")?;
    text.extend_from_slice(rest.as_bytes())?;
    Ok(())
}
