//! The first fault of a program.

ghost use Rattle.std.specs.Prelude.{◌≡◌, IfOk};
ghost use Rattle.std.specs.Option.{option_map};
ghost use Rattle.alf_program.specs.Tree.{program_of};
ghost use Rattle.alf_faults.specs.Fault.{earliest};
ghost use Rattle.alf_faults.specs.FoundFaults.{told, fault_of};
ghost use Rattle.alf_faults.specs.Faults.{global_faults, faults_in};

use crate::findings::Found;
use crate::frame_faults::{export_fault, repeated_frame, start_fault};
use crate::function_faults::functions_fault;
use crate::item_faults::{ItemFault, owned};
use crate::unknown_names::unknown_export;
use alf_program::Program;
use std::alloc::{AllocError, Global};

/// The first fault of a program's names and sizes, in text order, or None where there is none.
///
/// The text goes through the exported frames and labels, the global frames, what these hold at
/// first, and the functions, each through its name, its arguments, its declarations, what these hold
/// at first, and its items. At one place a duplicate comes before unknown names, and these before a
/// size. It takes memory for a table of the labels of one function at a time, the numbers of one
/// switch, one entry for each function, and the name, and goes as deep as expressions are nested,
/// which is at most 64 in a program that was read. A fault at an item after the 4,294,967,296th
/// is told as want of memory.
pub fn first_fault(alloc: Global, program: &Program) -> Result<Option<ItemFault>, AllocError>
    ensures first { IfOk result (λ found. option_map fault_of found
        ≡ earliest (faults_in (program_of program.now))) }
{
    match first_found(alloc, program)? {
        Some(found) => Ok(Some(owned(alloc, found)?)),
        None => Ok(None),
    }
}

// The same, by names of the program.
#[tactic(auto, using(crate::proofs::EarliestFaults::earliest_faults))]
fn first_found(alloc: Global, program: &Program) -> Result<Option<Found<'_>>, AllocError>
    ensures { IfOk result (λ found. option_map told found
        ≡ earliest (faults_in (program_of program.now))) }
{
    if let Some(found) = global_fault(program) {
        return Ok(Some(found));
    }
    functions_fault(alloc, program)
}

// The first fault of what stands before the functions.
#[tactic(auto, using(crate::proofs::EarliestFaults::earliest_faults))]
fn global_fault(program: &Program) -> Option<Found<'_>>
    ensures { option_map told result ≡ earliest (global_faults (program_of program.now)) }
{
    if let Some(found) = export_fault(&program.decls, &program.exports) {
        return Some(found);
    }
    if let Some(found) = unknown_export(program) {
        return Some(found);
    }
    if let Some(found) = repeated_frame(&[], &[], &program.decls) {
        return Some(found);
    }
    start_fault(&program.decls, &program.inits)
}
