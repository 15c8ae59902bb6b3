//! What `run` tells of a run.

ghost use Rattle.std.specs.Prelude.{◌≡◌, ◌≤◌, ◌<◌, ◌-◌, ◌^◌, ◌++◌, ◌∷◌, [], length, IfOk, OnOk, Some, pos};
ghost use Rattle.std.specs.List.{zip};
ghost use Rattle.alf_ops.specs.TwosComplement.{signed};
ghost use Rattle.alf_check.specs.CheckedPrograms.{seen};
ghost use Rattle.alf_interp.specs.Counts.{outcome_of};
ghost use Rattle.answer_texts.specs.ScopeLines.{name_of};
ghost use Rattle.answer_texts.specs.RunText.{frame_text, value_text, returned_line, global_line, global_lines};
ghost use Rattle.answer_texts.specs.RunText.{stopped_line, run_text};

use crate::fault_words::word_of;
use alf_check::Checked;
use alf_interp::{Outputs, RunEnd, Tally};
use alf_ops::{RunFault, Value};
use flow_graph::Graph;
use program_files::push_quoted;
use std::alloc::{AllocError, Global};

/// What is told of a run of which this was counted.
pub fn run_text(
    alloc: Global,
    checked: &Checked,
    graph: &Graph,
    tally: &Tally,
) -> Result<Vec<u8>, AllocError>
    requires { tally.now.last < length graph.now.nodes }
    ensures { IfOk result
        (λ text. text.items
        ≡ run_text (record { program = seen checked.now; graph = graph.now }) (Some tally.now.last)
        (outcome_of tally.now.end) tally.now.turns tally.now.cost) }
{
    let mut text = Vec::new(alloc);
    match &tally.end {
        RunEnd::Returned(outputs) => push_outputs(&mut text, alloc, checked, outputs)?,
        RunEnd::Faulted(fault) => push_stop(&mut text, alloc, graph, *fault, tally.last)?,
    }
    let turns = tally.turns;
    let cost = tally.cost;
    let rest = format!(in alloc; "turns {turns}\ncost {cost}\n")?;
    text.extend_from_slice(rest.as_bytes())?;
    Ok(text)
}

// Adds what the root returned, and what the exported frames hold.
fn push_outputs(
    text: &mut Vec<u8>,
    alloc: Global,
    checked: &Checked,
    outputs: &Outputs,
) -> Result<(), AllocError>
    ensures { OnOk result (text.new.items ≡ text.old.items ++ (returned_line (seen checked.now) outputs.now.returned
        ++ global_lines (seen checked.now) (zip (seen checked.now).exports outputs.now.globals.items))) }
{
    push_returned(text, alloc, checked, outputs.returned)?;
    push_globals(text, alloc, checked, checked.exports(), &outputs.globals)
}

// Adds what these frames hold, each beside its value.
fn push_globals(
    text: &mut Vec<u8>,
    alloc: Global,
    checked: &Checked,
    frames: &[u32],
    values: &[Option<Value>],
) -> Result<(), AllocError>
    ensures { OnOk result
        (text.new.items ≡ text.old.items ++ global_lines (seen checked.now) (zip frames.now values.now)) }
{
    let Some((frame, frames)) = frames.split_first() else {
        return Ok(());
    };
    let Some((value, values)) = values.split_first() else {
        return Ok(());
    };
    push_global(text, alloc, checked, *frame, *value)?;
    push_globals(text, alloc, checked, frames, values)
}

// Adds what the root returned.
fn push_returned(
    text: &mut Vec<u8>,
    alloc: Global,
    checked: &Checked,
    value: Option<Value>,
) -> Result<(), AllocError>
    ensures { OnOk result (text.new.items ≡ text.old.items ++ returned_line (seen checked.now) value) }
{
    let Some(value) = value else {
        text.extend_from_slice(b"returned\n")?;
        return Ok(());
    };
    text.extend_from_slice(b"returned ")?;
    push_value(text, alloc, checked, value)?;
    text.push(b'\n')?;
    Ok(())
}

// Adds what an exported frame holds.
fn push_global(
    text: &mut Vec<u8>,
    alloc: Global,
    checked: &Checked,
    frame: u32,
    value: Option<Value>,
) -> Result<(), AllocError>
    ensures { OnOk result (text.new.items ≡ text.old.items ++ global_line (seen checked.now) frame value) }
{
    text.extend_from_slice(b"global ")?;
    push_quoted(text, frame_name(checked, frame))?;
    text.push(b' ')?;
    match value {
        None => text.push(b'-')?,
        Some(value) => push_value(text, alloc, checked, value)?,
    }
    text.push(b'\n')?;
    Ok(())
}

// Adds the fault that ends a run, and the name of the node at which it does.
fn push_stop(
    text: &mut Vec<u8>,
    alloc: Global,
    graph: &Graph,
    fault: RunFault,
    node: u32,
) -> Result<(), AllocError>
    requires { node < length graph.now.nodes }
    ensures { OnOk result (text.new.items ≡ text.old.items ++ stopped_line fault (name_of graph.now node)) }
{
    let word = word_of(fault);
    let start = format!(in alloc; "stopped {word} ")?;
    let name = graph.name(alloc, node)?;
    text.extend_from_slice(start.as_bytes())?;
    text.extend_from_slice(&name)?;
    text.push(b'\n')?;
    Ok(())
}

// Adds a value.
fn push_value(
    text: &mut Vec<u8>,
    alloc: Global,
    checked: &Checked,
    value: Value,
) -> Result<(), AllocError>
    ensures { OnOk result (text.new.items ≡ text.old.items ++ value_text (seen checked.now) value) }
{
    match value {
        Value::Int { size, bits } => {
            let number = signed(size, bits);
            let number = format!(in alloc; "{number}")?;
            text.extend_from_slice(number.as_bytes())?;
        }
        Value::Ptr { frame, offset } => {
            push_quoted(text, frame_name(checked, frame))?;
            let offset = format!(in alloc; "+{offset}")?;
            text.extend_from_slice(offset.as_bytes())?;
        }
    }
    Ok(())
}

// The name of a frame.
fn frame_name(checked: &Checked, frame: u32) -> &[u8]
    ensures { frame_text (seen checked.now) frame ≡ 34 ∷ (result.now ++ 34 ∷ []) }
{
    match checked.frames().get(frame as usize) {
        Some(row) => row.name.bytes(),
        None => &[],
    }
}

// The word in two's complement.
#[tactic(auto, using(crate::proofs::Signed::signed_wide))]
fn signed(size: u32, bits: u64) -> i128
    ensures { result ≡ signed size bits }
{
    let word = i128::from(bits);
    if size > 64 {
        return word;
    }
    if u128::from(bits) < half(size) {
        return word;
    }
    word - power(size)
}

// Half of the words of a size.
fn half(size: u32) -> u128
    requires { size ≤ 64 }
    ensures { result ≡ 2 ^ (size - 1) }
{
    1 << size.saturating_sub(1)
}

// The count of all words of a size.
fn power(size: u32) -> i128
    requires { size ≤ 64 }
    ensures { result ≡ pos (2 ^ size) }
{
    1 << size
}
