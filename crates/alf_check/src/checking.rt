//! Checks of a program, in the order in which they are told.

ghost use Rattle.std.specs.Prelude.{◌≡◌, ◌<◌, ℕ, List, [], Some, map, IfOk, IfErr, OnOk};
ghost use Rattle.alf_program.specs.Tree.{function_of, program_of};
ghost use Rattle.alf_program.specs.Writable.{IsWritable};
ghost use Rattle.alf_faults.specs.Faults.{faults_in};
ghost use Rattle.graph_walks.specs.Calls.{OnCycle};
ghost use Rattle.alf_check.specs.CheckedPrograms.{seen};
ghost use Rattle.alf_check.specs.Numbered.{numbered};
ghost use Rattle.alf_check.specs.Checking.{Passes, IsTold, calls_among, calls_in, name_at};

use crate::calls::calls_among;
use crate::fault::CheckFault;
use crate::program::{Checked, number};
use alf_faults::{ItemFault, first_fault, function_named};
use alf_program::{Func, Program};
use flow_base::Name;
use graph_walks::{CallFault, call_ranks, ranked_calls_have_no_cycle};
use std::alloc::{AllocError, Global};

/// The program with numbers in place of names, which starts with the function of this name.
///
/// Names and sizes are checked first, in the order of the text, then recursion, and then that there
/// is a function to start with. Whether calls are ever reached does not count. The program is one
/// that some text can spell, as one that was read is. Takes memory for the tables of names, the calls
/// and the answer; the program is given up.
pub fn check(alloc: Global, program: Program, root: &str) -> Result<Checked, CheckFault>
    requires writable { IsWritable (program_of program) }
    ensures passes { IfOk result (λ checked. Passes (program_of program) root.now) }
    ensures numbered { IfOk result (λ checked. seen checked ≡ numbered (program_of program) root.now) }
    ensures told { IfErr result (λ fault. IsTold (program_of program) root.now fault) }
{
    let root = root.as_bytes();
    if let Err(fault) = check_items(alloc, &program) {
        return Err(fault);
    }
    if let Err(fault) = check_calls(alloc, &program) {
        return Err(fault);
    }
    if let Err(fault) = check_root(alloc, &program, root) {
        return Err(fault);
    }
    match number(alloc, &program, root) {
        Ok(checked) => Ok(checked),
        Err(_) => Err(CheckFault::Memory),
    }
}

// That nothing is wrong with the names and the sizes.
fn check_items(alloc: Global, program: &Program) -> Result<(), CheckFault>
    ensures sound { OnOk result (faults_in (program_of program.now) ≡ []) }
    ensures told { IfErr result (λ fault. (root : List ℕ) → IsTold (program_of program.now) root fault) }
{
    match first_fault(alloc, program) {
        Ok(None) => Ok(()),
        Ok(Some(ItemFault::Unknown(name))) => Err(CheckFault::UnknownName(name)),
        Ok(Some(ItemFault::Duplicate(name))) => Err(CheckFault::DuplicateName(name)),
        Ok(Some(ItemFault::Size(name, number))) => Err(CheckFault::Size(name, number)),
        Err(_) => Err(CheckFault::Memory),
    }
}

// That no calls lead from a function back to it, as ranks of the functions show.
fn check_calls(alloc: Global, program: &Program) -> Result<(), CheckFault>
    requires { faults_in (program_of program.now) ≡ [] }
    ensures acyclic { OnOk result ((f : ℕ) → OnCycle (calls_in (program_of program.now)) f → ⊥) }
    ensures told { IfErr result (λ fault. (root : List ℕ) → IsTold (program_of program.now) root fault) }
{
    ranked_calls_have_no_cycle();
    let funcs = program.funcs.as_slice();
    let Ok(calls) = calls_among(alloc, funcs) else {
        return Err(CheckFault::Memory);
    };
    let calls = calls.as_slice();
    match call_ranks(alloc, calls) {
        Ok(_ranks) => Ok(()),
        Err(CallFault::Cycle(path)) => match names_along(alloc, funcs, &path) {
            Ok(names) => Err(CheckFault::Recursion(names)),
            Err(_) => Err(CheckFault::Memory),
        },
        Err(CallFault::Memory) => Err(CheckFault::Memory),
    }
}

// The names of the functions of these numbers.
fn names_along(alloc: Global, funcs: &[Func], path: &[u32]) -> Result<Vec<Name>, AllocError>
    ensures { IfOk result (λ names. names.items ≡ map (name_at (map function_of funcs.now)) path.now) }
{
    let mut names = Vec::new(alloc);
    for number in path {
        names.push(Name::new(alloc, name_at(funcs, *number))?)?;
    }
    Ok(names)
}

// The name of the function of this number.
fn name_at(funcs: &[Func], number: u32) -> &[u8]
    ensures { result.now ≡ name_at (map function_of funcs.now) number }
{
    match funcs.get(number as usize) {
        Some(func) => func.name.bytes(),
        None => &[],
    }
}

// That there is a function of this name.
fn check_root(alloc: Global, program: &Program, root: &[u8]) -> Result<(), CheckFault>
    requires sound { faults_in (program_of program.now) ≡ [] }
    requires acyclic { (f : ℕ) → OnCycle (calls_in (program_of program.now)) f → ⊥ }
    ensures passes { OnOk result (Passes (program_of program.now) root.now) }
    ensures told { IfErr result (λ fault. IsTold (program_of program.now) root.now fault) }
{
    match function_named(&program.funcs, root) {
        Some(_) => Ok(()),
        None => match Name::new(alloc, root) {
            Ok(name) => Err(CheckFault::Root(name)),
            Err(_) => Err(CheckFault::Memory),
        },
    }
}
