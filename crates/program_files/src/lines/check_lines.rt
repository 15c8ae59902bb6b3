//! Lines that tell why a program does not pass the checks, or has no graph.

ghost use Rattle.std.specs.Prelude.{◌≡◌, ◌++◌, ◌∷◌, [], string_bytes, IfOk, OnOk, Some};
ghost use Rattle.flow_graph.specs.Names.{quoted};
ghost use Rattle.command_plans.specs.Outcome.{cause_of};
ghost use Rattle.program_files.specs.CheckLines.{number_or_dash, name_line, size_line, names_line, check_line};
ghost use Rattle.program_files.specs.CheckLines.{check_cause, graph_line};

use crate::lines::fault_lines::limit_line;
use alf_check::CheckFault;
use command_plans::Why;
use flow_base::Name;
use flow_graph::GraphFault;
use std::alloc::{AllocError, Global};

/// The line of a program that does not pass. Want of memory has none.
pub fn check_line(alloc: Global, fault: &CheckFault) -> Result<Vec<u8>, AllocError>
    ensures { IfOk result (λ line. check_line fault.now ≡ Some line.items) }
{
    match fault {
        CheckFault::UnknownName(name) => name_line(alloc, "fault 20 unknown ", name),
        CheckFault::DuplicateName(name) => name_line(alloc, "fault 21 duplicate ", name),
        CheckFault::Size(name, number) => size_line(alloc, name, *number),
        CheckFault::Recursion(names) => names_line(alloc, "fault 23 recursion", names),
        CheckFault::Root(name) => name_line(alloc, "fault 24 root ", name),
        CheckFault::Memory => Err(AllocError),
    }
}

/// Of several cycles of calls the line gives one.
pub fn check_why(fault: &CheckFault) -> Why
    ensures { cause_of result ≡ check_cause fault.now }
{
    match fault {
        CheckFault::UnknownName(_) => Why::Source,
        CheckFault::DuplicateName(_) => Why::Source,
        CheckFault::Size(_, _) => Why::Source,
        CheckFault::Recursion(_) => Why::Example,
        CheckFault::Root(_) => Why::Source,
        CheckFault::Memory => Why::Source,
    }
}

/// The line of a program whose graph passes a limit. Want of memory has none.
pub fn graph_line(alloc: Global, fault: &GraphFault) -> Result<Vec<u8>, AllocError>
    ensures { IfOk result (λ line. graph_line fault.now ≡ Some line.items) }
{
    match fault {
        GraphFault::Limit(which, count) => limit_line(alloc, *which, *count),
        GraphFault::Memory => Err(AllocError),
    }
}

/// The line of a name, after these words.
pub fn name_line(alloc: Global, words: &str, name: &Name) -> Result<Vec<u8>, AllocError>
    ensures { IfOk result (λ line. line.items ≡ name_line words.now name.now) }
{
    let mut line = Vec::from_slice(alloc, words.as_bytes())?;
    push_quoted(&mut line, name.bytes())?;
    line.push(b'\n')?;
    Ok(line)
}

fn size_line(alloc: Global, name: &Name, number: Option<u32>) -> Result<Vec<u8>, AllocError>
    ensures { IfOk result (λ line. line.items ≡ size_line name.now number) }
{
    let number = number_or_dash(alloc, number)?;
    let mut line = Vec::from_slice(alloc, b"fault 22 size ")?;
    push_quoted(&mut line, name.bytes())?;
    line.push(b' ')?;
    line.extend_from_slice(number.as_bytes())?;
    line.push(b'\n')?;
    Ok(line)
}

/// The line of the names on a cycle of calls, after these words.
pub fn names_line(alloc: Global, words: &str, names: &[Name]) -> Result<Vec<u8>, AllocError>
    ensures { IfOk result (λ line. line.items ≡ names_line words.now names.now) }
{
    let mut line = Vec::from_slice(alloc, words.as_bytes())?;
    for name in names {
        line.push(b' ')?;
        push_quoted(&mut line, name.bytes())?;
    }
    line.push(b'\n')?;
    Ok(line)
}

/// Adds a name in quotes.
pub fn push_quoted(line: &mut Vec<u8>, name: &[u8]) -> Result<(), AllocError>
    ensures { OnOk result (line.new.items ≡ line.old.items ++ quoted name.now) }
{
    line.push(b'"')?;
    line.extend_from_slice(name)?;
    line.push(b'"')?;
    Ok(())
}

/// The number, or a dash where there is none.
pub fn number_or_dash(alloc: Global, number: Option<u32>) -> Result<String, AllocError>
    ensures { IfOk result (λ text. string_bytes text ≡ number_or_dash number) }
{
    match number {
        None => String::from_str(alloc, "-"),
        Some(number) => {
            let text = format!(in alloc; "{number}")?;
            Ok(text)
        }
    }
}
