//! Names that stand nowhere.

ghost use Rattle.std.specs.Prelude.{◌≡◌, ◌++◌, map};
ghost use Rattle.std.specs.List.{flat_map};
ghost use Rattle.std.specs.Option.{option_map};
ghost use Rattle.alf_program.specs.Tree.{expression_of, expressions_of, item_of, function_of, program_of};
ghost use Rattle.alf_faults.specs.Fault.{earliest};
ghost use Rattle.alf_faults.specs.FoundFaults.{told};
ghost use Rattle.alf_faults.specs.Unknowns.{is_frame, unknown_frame, unknown_in, unknown_among, unknown_function};
ghost use Rattle.alf_faults.specs.Unknowns.{unknown_label, unknown_targets, unknown_result, entry_unknowns};

use crate::findings::Found;
use crate::label_table::Labels;
use crate::places::{frame_named, function_named};
use alf_program::{Expr, Func, Item, Num, Program, Stmt};
use flow_base::Name;

/// The first name of an item that stands nowhere.
pub fn entry_unknown<'a>(
    program: &Program,
    func: &Func,
    labels: &Labels,
    item: &'a Item,
) -> Option<Found<'a>>
    requires { labels.now ≡ func.now.items.items }
    ensures { option_map told result
        ≡ earliest
        (entry_unknowns (program_of program.now) (function_of func.now) (item_of item.now)) }
{
    match item {
        Item::Label(_) => None,
        Item::Stmt(Stmt::Null) => None,
        Item::Stmt(Stmt::Store(at, value)) => unknown_in_two(program, func, at, value),
        Item::Stmt(Stmt::Jump(label)) => unknown_label(labels, label),
        Item::Stmt(Stmt::Switch(value, targets, others)) => {
            unknown_in_switch(program, func, labels, value, targets, others)
        }
        Item::Stmt(Stmt::Call(label, args, result)) => {
            unknown_in_call(program, func, label, args, result)
        }
        Item::Stmt(Stmt::Return(None)) => None,
        Item::Stmt(Stmt::Return(Some(value))) => unknown_in(program, func, value),
    }
}

// The first unknown frame of two expressions.
#[tactic(auto, using(crate::proofs::EarliestFaults::earliest_faults))]
fn unknown_in_two<'a>(
    program: &Program,
    func: &Func,
    at: &'a Expr,
    value: &'a Expr,
) -> Option<Found<'a>>
    ensures { option_map told result ≡ earliest
        (unknown_in (program_of program.now) (function_of func.now) (expression_of at.now)
        ++ unknown_in (program_of program.now) (function_of func.now) (expression_of value.now)) }
{
    if let Some(found) = unknown_in(program, func, at) {
        return Some(found);
    }
    unknown_in(program, func, value)
}

// The first unknown name of a switch.
#[tactic(auto, using(crate::proofs::EarliestFaults::earliest_faults))]
fn unknown_in_switch<'a>(
    program: &Program,
    func: &Func,
    labels: &Labels,
    value: &'a Expr,
    targets: &'a [(Num, Name)],
    others: &'a Name,
) -> Option<Found<'a>>
    ensures { option_map told result ≡ earliest
        (unknown_in (program_of program.now) (function_of func.now) (expression_of value.now)
        ++ (unknown_targets (map item_of labels.now) targets.now
        ++ unknown_label (map item_of labels.now) others.now)) }
{
    if let Some(found) = unknown_in(program, func, value) {
        return Some(found);
    }
    if let Some(found) = unknown_target(labels, targets) {
        return Some(found);
    }
    unknown_label(labels, others)
}

// The first unknown name of a call.
#[tactic(auto, using(crate::proofs::EarliestFaults::earliest_faults))]
fn unknown_in_call<'a>(
    program: &Program,
    func: &Func,
    label: &'a Name,
    args: &'a [Expr],
    place: &'a Option<(Name, u32)>,
) -> Option<Found<'a>>
    ensures { option_map told result ≡ earliest
        (unknown_function (program_of program.now) label.now
        ++ (unknown_among
        (program_of program.now) (function_of func.now) (expressions_of (map expression_of args.now))
        ++ unknown_result (program_of program.now) (function_of func.now) place.now)) }
{
    if let Some(found) = unknown_function(program, label) {
        return Some(found);
    }
    if let Some(found) = unknown_among(program, func, args) {
        return Some(found);
    }
    unknown_result(program, func, place)
}

/// The first exported label that no function has.
#[tactic(auto, using(crate::proofs::EarliestFaults::earliest_faults))]
pub fn unknown_export(program: &Program) -> Option<Found<'_>>
    ensures { option_map told result ≡ earliest
        (flat_map (unknown_function (program_of program.now)) (program_of program.now).labels) }
{
    for name in &program.labels {
        if let Some(found) = unknown_function(program, name) {
            return Some(found);
        }
    }
    None
}

// The name, where no function has it.
fn unknown_function<'a>(program: &Program, name: &'a Name) -> Option<Found<'a>>
    ensures { option_map told result ≡ earliest (unknown_function (program_of program.now) name.now) }
{
    if function_named(&program.funcs, name.bytes()).is_some() {
        None
    } else {
        Some(Found::Unknown(name))
    }
}

// The label, where it does not stand among the items.
fn unknown_label<'a>(labels: &Labels, label: &'a Name) -> Option<Found<'a>>
    ensures { option_map told result ≡ earliest (unknown_label (map item_of labels.now) label.now) }
{
    if labels.find(label.bytes()).is_some() {
        None
    } else {
        Some(Found::Unknown(label))
    }
}

// The first label of a target that does not stand among the items.
#[tactic(auto, using(crate::proofs::EarliestFaults::earliest_faults))]
fn unknown_target<'a>(labels: &Labels, targets: &'a [(Num, Name)]) -> Option<Found<'a>>
    ensures { option_map told result
        ≡ earliest (unknown_targets (map item_of labels.now) targets.now) }
{
    for target in targets {
        if let Some(found) = unknown_label(labels, &target.1) {
            return Some(found);
        }
    }
    None
}

// The frame that a call's result goes to, where there is none of that name.
fn unknown_result<'a>(
    program: &Program,
    func: &Func,
    place: &'a Option<(Name, u32)>,
) -> Option<Found<'a>>
    ensures { option_map told result
        ≡ earliest (unknown_result (program_of program.now) (function_of func.now) place.now) }
{
    match place {
        Some(place) => unknown_frame(program, func, &place.0),
        None => None,
    }
}

// The frame, where it is neither global nor an argument or a declaration of the function.
fn unknown_frame<'a>(program: &Program, func: &Func, name: &'a Name) -> Option<Found<'a>>
    ensures { option_map told result
        ≡ earliest (unknown_frame (program_of program.now) (function_of func.now) name.now) }
{
    if is_frame(program, func, name.bytes()) {
        None
    } else {
        Some(Found::Unknown(name))
    }
}

// Whether the frame is global, or an argument or a declaration of the function.
fn is_frame(program: &Program, func: &Func, name: &[u8]) -> bool
    ensures { result ≡ is_frame (program_of program.now) (function_of func.now) name.now }
{
    frame_named(&program.decls, name).is_some()
        || frame_named(&func.args, name).is_some()
        || frame_named(&func.decls, name).is_some()
}

// The first unknown frame of an expression, from left to right.
#[cycle(unknowns)]
fn unknown_in<'a>(program: &Program, func: &Func, expr: &'a Expr) -> Option<Found<'a>>
    ensures { option_map told result
        ≡ earliest (unknown_in (program_of program.now) (function_of func.now) (expression_of expr.now)) }
{
    match expr {
        Expr::Num(_) => None,
        Expr::Addr(frame, _) => unknown_frame(program, func, frame),
        Expr::Load(_, at) => unknown_in(program, func, at),
        Expr::Apply(_, _, operands) => unknown_among(program, func, operands),
    }
}

// The first unknown frame of expressions in a row.
#[cycle(unknowns)]
#[tactic(auto, using(crate::proofs::EarliestFaults::earliest_faults))]
fn unknown_among<'a>(program: &Program, func: &Func, operands: &'a [Expr]) -> Option<Found<'a>>
    ensures { option_map told result ≡ earliest (unknown_among
        (program_of program.now) (function_of func.now) (expressions_of (map expression_of operands.now))) }
{
    for operand in operands {
        if let Some(found) = unknown_in(program, func, operand) {
            return Some(found);
        }
    }
    None
}
