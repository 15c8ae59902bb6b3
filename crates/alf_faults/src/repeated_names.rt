//! Names that stand twice: of functions and labels, and numbers of targets.

ghost use Rattle.std.specs.Prelude.{◌≡◌, [], map, IfOk};
ghost use Rattle.std.specs.Option.{option_map};
ghost use Rattle.alf_program.specs.Tree.{item_of, function_of, program_of};
ghost use Rattle.alf_faults.specs.Fault.{earliest};
ghost use Rattle.alf_faults.specs.FoundFaults.{told};
ghost use Rattle.alf_faults.specs.Duplicates.{function_duplicates, label_duplicates, target_duplicates};
ghost use Rattle.alf_faults.specs.Duplicates.{entry_duplicates};

use crate::findings::{Found, is_exactly};
use crate::label_table::Labels;
use crate::places::function_named;
use alf_program::{Func, Item, Num, Program, Stmt};
use flow_base::Name;
use indexmap::IndexSet;
use std::alloc::{AllocError, Global};

/// The function's name, where an earlier function has it.
pub fn repeated_function<'a>(program: &Program, place: usize, func: &'a Func) -> Option<Found<'a>>
    ensures { option_map told result
        ≡ earliest (function_duplicates (program_of program.now).funcs place (function_of func.now)) }
{
    if is_exactly(place, function_named(&program.funcs, func.name.bytes())) {
        None
    } else {
        Some(Found::Duplicate(&func.name))
    }
}

/// What stands twice at item `place`: a label, or the number of a target.
pub fn entry_repeated<'a>(
    alloc: Global,
    program: &Program,
    func: &Func,
    labels: &Labels,
    place: usize,
    item: &'a Item,
) -> Result<Option<Found<'a>>, AllocError>
    requires { labels.now ≡ func.now.items.items }
    ensures { IfOk result (λ found. option_map told found ≡ earliest
        (entry_duplicates (program_of program.now) (function_of func.now) place (item_of item.now))) }
{
    match item {
        Item::Label(label) => Ok(repeated_label(program, labels, place, label)),
        Item::Stmt(Stmt::Null) => Ok(None),
        Item::Stmt(Stmt::Store(_, _)) => Ok(None),
        Item::Stmt(Stmt::Jump(_)) => Ok(None),
        Item::Stmt(Stmt::Switch(_, targets, _)) => repeated_target(alloc, targets),
        Item::Stmt(Stmt::Call(_, _, _)) => Ok(None),
        Item::Stmt(Stmt::Return(_)) => Ok(None),
    }
}

// The label of item `place`, where an earlier item or a function has it.
fn repeated_label<'a>(
    program: &Program,
    labels: &Labels,
    place: usize,
    label: &'a Name,
) -> Option<Found<'a>>
    ensures { option_map told result ≡ earliest
        (label_duplicates (program_of program.now).funcs (map item_of labels.now) place label.now) }
{
    if !is_exactly(place, labels.find(label.bytes()))
        || function_named(&program.funcs, label.bytes()).is_some()
    {
        Some(Found::Duplicate(label))
    } else {
        None
    }
}

// The first number of a target that an earlier target has.
fn repeated_target(alloc: Global, targets: &[(Num, Name)]) -> Result<Option<Found<'_>>, AllocError>
    ensures { IfOk result (λ found. option_map told found
        ≡ earliest (target_duplicates [] targets.now)) }
{
    let mut seen = IndexSet::new(alloc);
    for target in targets {
        if !seen.insert(target.0.bits)? {
            return Ok(Some(Found::Repeated(target.0.bits)));
        }
    }
    Ok(None)
}
