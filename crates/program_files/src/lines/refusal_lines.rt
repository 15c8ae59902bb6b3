//! Lines that tell why a unit of C does not pass the checks.

ghost use Rattle.std.specs.Prelude.{◌≡◌, IfOk, IfSome, IsSomeAnd};
ghost use Rattle.command_plans.specs.Outcome.{cause_of};
ghost use Rattle.program_files.specs.RefusalLines.{refusal_line, refusal_cause, refusal_of};

use crate::lines::check_lines::{name_line, names_line};
use crate::lines::fault_lines::place_text;
use c_check::CFault;
use command_plans::Why;
use std::alloc::{AllocError, Global};

/// The line of a unit that does not pass. Want of memory has none.
pub fn refusal_line(alloc: Global, fault: &CFault) -> Result<Vec<u8>, AllocError>
    ensures { IfOk result (λ line. IsSomeAnd (refusal_of fault.now) (λ refusal. line.items ≡ refusal_line refusal)) }
{
    match fault {
        CFault::UnknownName(name) => name_line(alloc, "fault 94 name ", name),
        CFault::Duplicate(name) => name_line(alloc, "fault 95 duplicate ", name),
        CFault::Mistyped(place) => {
            let place = place_text(alloc, *place)?;
            let line = format!(in alloc; "fault 96 type {place}\n")?;
            Ok(line.into_bytes())
        }
        CFault::Recursion(names) => names_line(alloc, "fault 97 recursion", names),
        CFault::Root(name) => name_line(alloc, "fault 98 root ", name),
        CFault::Memory => Err(AllocError),
    }
}

/// Of several cycles of calls the line gives one.
pub fn refusal_why(fault: &CFault) -> Why
    ensures { IfSome (refusal_of fault.now) (λ refusal. cause_of result ≡ refusal_cause refusal) }
{
    match fault {
        CFault::UnknownName(_) => Why::Source,
        CFault::Duplicate(_) => Why::Source,
        CFault::Mistyped(_) => Why::Source,
        CFault::Recursion(_) => Why::Example,
        CFault::Root(_) => Why::Source,
        CFault::Memory => Why::Source,
    }
}
