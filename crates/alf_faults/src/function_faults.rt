//! The faults of functions.

ghost use Rattle.std.specs.Prelude.{◌≡◌, IfOk};
ghost use Rattle.std.specs.Option.{option_map};
ghost use Rattle.alf_program.specs.Tree.{item_of, function_of, program_of};
ghost use Rattle.alf_faults.specs.Fault.{earliest, each_from};
ghost use Rattle.alf_faults.specs.FoundFaults.{told};
ghost use Rattle.alf_faults.specs.Returns.{returns_of};
ghost use Rattle.alf_faults.specs.Scopes.{IsScope};
ghost use Rattle.alf_faults.specs.Faults.{entry_faults, header_faults, function_faults};

use crate::findings::Found;
use crate::frame_faults::{repeated_frame, start_fault};
use crate::label_table::Labels;
use crate::repeated_names::{entry_repeated, repeated_function};
use crate::returns::{FirstReturn, first_return, first_returns};
use crate::scopes::Scope;
use crate::size_rules::entry_fits;
use crate::unknown_names::entry_unknown;
use alf_program::{Func, Item, Program};
use std::alloc::{AllocError, Global};

/// The first fault of the functions.
#[tactic(auto, using(crate::proofs::EarliestFaults::earliest_faults))]
pub fn functions_fault(alloc: Global, program: &Program) -> Result<Option<Found<'_>>, AllocError>
    ensures { IfOk result (λ found. option_map told found ≡ earliest
        (each_from (function_faults (program_of program.now)) 0 (program_of program.now).funcs)) }
{
    let returns = first_returns(alloc, &program.funcs)?;
    for (place, func) in program.funcs.iter().enumerate() {
        if let Some(found) = function_fault(alloc, program, &returns, place, func)? {
            return Ok(Some(found));
        }
    }
    Ok(None)
}

// The first fault of function `place`.
#[tactic(auto, using(crate::proofs::EarliestFaults::earliest_faults))]
fn function_fault<'a>(
    alloc: Global,
    program: &'a Program,
    returns: &[Option<FirstReturn>],
    place: usize,
    func: &'a Func,
) -> Result<Option<Found<'a>>, AllocError>
    requires { returns.now ≡ returns_of program.now.funcs.items }
    ensures { IfOk result (λ found. option_map told found
        ≡ earliest (function_faults (program_of program.now) place (function_of func.now))) }
{
    if let Some(found) = header_fault(program, place, func) {
        return Ok(Some(found));
    }
    let labels = Labels::new(alloc, &func.items)?;
    let scope = Scope {
        program,
        returns,
        func,
        place,
        first: first_return(&func.items),
        labels: &labels,
    };
    entries_fault(alloc, &scope)
}

// The first fault of the name and the frames of function `place`.
#[tactic(auto, using(crate::proofs::EarliestFaults::earliest_faults))]
fn header_fault<'a>(program: &Program, place: usize, func: &'a Func) -> Option<Found<'a>>
    ensures { option_map told result
        ≡ earliest (header_faults (program_of program.now) place (function_of func.now)) }
{
    if let Some(found) = repeated_function(program, place, func) {
        return Some(found);
    }
    if let Some(found) = repeated_frame(&program.decls, &[], &func.args) {
        return Some(found);
    }
    if let Some(found) = repeated_frame(&program.decls, &func.args, &func.decls) {
        return Some(found);
    }
    start_fault(&func.decls, &func.inits)
}

// The first fault of the items.
#[tactic(auto, using(crate::proofs::EarliestFaults::earliest_faults))]
fn entries_fault<'a>(alloc: Global, scope: &Scope<'_, 'a>) -> Result<Option<Found<'a>>, AllocError>
    requires { IsScope scope.now }
    ensures { IfOk result (λ found. option_map told found ≡ earliest (each_from (entry_faults
        (program_of scope.now.program.now) scope.now.place (function_of scope.now.func.now))
        0 (function_of scope.now.func.now).items)) }
{
    for (at, item) in scope.func.items.iter().enumerate() {
        if let Some(found) = entry_fault(alloc, scope, at, item)? {
            return Ok(Some(found));
        }
    }
    Ok(None)
}

// The fault of item `place`.
#[tactic(auto, using(crate::proofs::EarliestFaults::earliest_faults))]
fn entry_fault<'a>(
    alloc: Global,
    scope: &Scope<'_, 'a>,
    place: usize,
    item: &'a Item,
) -> Result<Option<Found<'a>>, AllocError>
    requires { IsScope scope.now }
    ensures { IfOk result (λ found. option_map told found ≡ earliest (entry_faults
        (program_of scope.now.program.now) scope.now.place (function_of scope.now.func.now)
        place (item_of item.now))) }
{
    let (program, func, labels) = (scope.program, scope.func, scope.labels);
    if let Some(found) = entry_repeated(alloc, program, func, labels, place, item)? {
        return Ok(Some(found));
    }
    if let Some(found) = entry_unknown(program, func, labels, item) {
        return Ok(Some(found));
    }
    if entry_fits(scope, place, item) {
        Ok(None)
    } else {
        Ok(Some(Found::Size(&func.name, Some(place))))
    }
}
