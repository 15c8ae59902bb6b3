//! The frames of a function: its locals and the results of its calls, in the order of the text.

ghost use Rattle.std.specs.Prelude.{◌≡◌, ◌≤◌, ◌<◌, ◌+◌, ◌^◌, ◌++◌, [], ◌∷◌, map, IfOk, OnOk};
ghost use Rattle.std.specs.Option.{option_map};
ghost use Rattle.alf_program.specs.Tree.{allocation_of};
ghost use Rattle.c_unit.specs.Limits.{most_elements};
ghost use Rattle.c_unit.specs.Tree.{call_of, value_of, effect_of, local_of, local_shape_of, statement_of};
ghost use Rattle.c_unit.specs.Tree.{statements_of};
ghost use Rattle.c_unit.specs.Units.{unit_of};
ghost use Rattle.c_rules.specs.Counts.{elements_of_all, elements_in, all_elements_in};
ghost use Rattle.c_lowered.specs.Effects as effects;
ghost use Rattle.c_lowered.specs.Statements as statements;
ghost use Rattle.c_lowered.specs.Frames as laws;
ghost use Rattle.object_layout.specs.Views.{program_in};

use crate::place::{Place, call_name};
use alf_program::Alloc;
use c_unit::{Call, Effect, Integer, Local, LocalShape, Outcome, Parameter, Stmt, Value};
use flow_base::Name;
use object_layout::{bits_of_local, bits_of_scalar, parameter_token};
use operator_lowering::bits_of_type;
use std::alloc::AllocError;

// The number after a call.
fn after(calls: u64, given: Outcome) -> u64
    requires { calls + effects.calls_of_outcome given < 2 ^ 64 }
    ensures { result ≡ calls + effects.calls_of_outcome given }
{
    match given {
        Outcome::Nothing => calls,
        Outcome::Integer(_) => calls + 1,
    }
}

// Puts the frame of an object.
fn put_object(
    place: Place<'_, '_>,
    frames: &mut Vec<Alloc>,
    token: u32,
    bits: u32,
) -> Result<(), AllocError>
    ensures { OnOk result
        (map allocation_of frames.new.items
        ≡ map allocation_of frames.old.items ++ laws.object_frame (program_in place.entry.table.now) token bits ∷ []) }
{
    let name = Name::new(place.alloc, place.table.frame_of(token))?;
    frames.push(Alloc { name, bits })?;
    Ok(())
}

// Puts the frame of a call's result, if the function gives something.
fn put_call(
    place: Place<'_, '_>,
    frames: &mut Vec<Alloc>,
    calls: u64,
    call: &Call,
) -> Result<u64, AllocError>
    requires calls { calls + effects.calls_in_call (program_in place.table.now) (call_of call.now) < 2 ^ 64 }
    ensures frames { OnOk result
        (map allocation_of frames.new.items
        ≡ map allocation_of frames.old.items
        ++ laws.call_frames (program_in place.entry.table.now) place.entry.function calls (call_of call.now)) }
    ensures calls { IfOk result
        (λ next. next ≡ calls + effects.calls_in_call (program_in place.entry.table.now) (call_of call.now)) }
{
    let given = place.table.result_of(call.name);
    match given {
        Outcome::Nothing => {}
        Outcome::Integer(kind) => {
            let name = call_name(place, calls)?;
            frames.push(Alloc {
                name,
                bits: bits_of_type(kind),
            })?;
        }
    }
    Ok(after(calls, given))
}

// Puts that of a value, if it is a call.
fn put_value(
    place: Place<'_, '_>,
    frames: &mut Vec<Alloc>,
    calls: u64,
    value: &Value,
) -> Result<u64, AllocError>
    requires calls { calls + effects.calls_in_value (program_in place.table.now) (value_of value.now) < 2 ^ 64 }
    ensures frames { OnOk result
        (map allocation_of frames.new.items
        ≡ map allocation_of frames.old.items
        ++ laws.value_frames (program_in place.entry.table.now) place.entry.function calls (value_of value.now)) }
    ensures calls { IfOk result
        (λ next. next ≡ calls + effects.calls_in_value (program_in place.entry.table.now) (value_of value.now)) }
{
    match value {
        Value::Expr(_) => Ok(calls),
        Value::Call(call) => put_call(place, frames, calls, call),
    }
}

// Puts that of a value that may be there.
fn put_first(
    place: Place<'_, '_>,
    frames: &mut Vec<Alloc>,
    calls: u64,
    first: &Option<Value>,
) -> Result<u64, AllocError>
    requires calls { calls + effects.calls_in_first (program_in place.table.now) (option_map value_of first.now)
        < 2 ^ 64 }
    ensures frames { OnOk result
        (map allocation_of frames.new.items
        ≡ map allocation_of frames.old.items
        ++ laws.first_frames (program_in place.entry.table.now) place.entry.function calls
        (option_map value_of first.now)) }
    ensures calls { IfOk result
        (λ next. next
        ≡ calls + effects.calls_in_first (program_in place.entry.table.now) (option_map value_of first.now)) }
{
    match first {
        Some(value) => put_value(place, frames, calls, value),
        None => Ok(calls),
    }
}

// Puts that of an effect.
fn put_effect(
    place: Place<'_, '_>,
    frames: &mut Vec<Alloc>,
    calls: u64,
    effect: &Effect,
) -> Result<u64, AllocError>
    requires calls { calls + effects.calls_in_effect (program_in place.table.now) (effect_of effect.now) < 2 ^ 64 }
    ensures frames { OnOk result
        (map allocation_of frames.new.items
        ≡ map allocation_of frames.old.items
        ++ laws.effect_frames (program_in place.entry.table.now) place.entry.function calls (effect_of effect.now)) }
    ensures calls { IfOk result
        (λ next. next ≡ calls + effects.calls_in_effect (program_in place.entry.table.now) (effect_of effect.now)) }
{
    match effect {
        Effect::Assign(_, _, value) => put_value(place, frames, calls, value),
        Effect::Update(_, _, _, _) => Ok(calls),
        Effect::Step(_, _, _) => Ok(calls),
        Effect::Call(call) => put_call(place, frames, calls, call),
    }
}

// Puts that of an effect that may be there.
fn put_last(
    place: Place<'_, '_>,
    frames: &mut Vec<Alloc>,
    calls: u64,
    last: &Option<Effect>,
) -> Result<u64, AllocError>
    requires calls { calls + statements.calls_if (program_in place.table.now) (option_map effect_of last.now) < 2 ^ 64 }
    ensures frames { OnOk result
        (map allocation_of frames.new.items
        ≡ map allocation_of frames.old.items
        ++ laws.last_frames (program_in place.entry.table.now) place.entry.function calls
        (option_map effect_of last.now)) }
    ensures calls { IfOk result
        (λ next. next
        ≡ calls + statements.calls_if (program_in place.entry.table.now) (option_map effect_of last.now)) }
{
    match last {
        Some(effect) => put_effect(place, frames, calls, effect),
        None => Ok(calls),
    }
}

// Puts that of what a local holds at first.
fn put_shape(
    place: Place<'_, '_>,
    frames: &mut Vec<Alloc>,
    calls: u64,
    shape: &LocalShape,
) -> Result<u64, AllocError>
    requires calls { calls + effects.calls_in_shape (program_in place.table.now) (local_shape_of shape.now) < 2 ^ 64 }
    ensures frames { OnOk result
        (map allocation_of frames.new.items
        ≡ map allocation_of frames.old.items
        ++ laws.shape_frames (program_in place.entry.table.now) place.entry.function calls (local_shape_of shape.now)) }
    ensures calls { IfOk result
        (λ next. next ≡ calls + effects.calls_in_shape (program_in place.entry.table.now) (local_shape_of shape.now)) }
{
    match shape {
        LocalShape::Integer(first) => put_first(place, frames, calls, first),
        LocalShape::Pointer(first) => put_first(place, frames, calls, first),
        LocalShape::Array(_, _) => Ok(calls),
    }
}

// Puts those of locals that are declared together.
fn put_locals(
    place: Place<'_, '_>,
    frames: &mut Vec<Alloc>,
    calls: u64,
    kind: Integer,
    locals: &[Local],
) -> Result<u64, AllocError>
    requires few { elements_of_all (unit_of place.table.now).words (map local_of locals.now) ≤ most_elements }
    requires calls { calls + effects.calls_in_locals (program_in place.table.now) (map local_of locals.now) < 2 ^ 64 }
    ensures frames { OnOk result
        (map allocation_of frames.new.items
        ≡ map allocation_of frames.old.items
        ++ laws.locals_frames (program_in place.entry.table.now) place.entry.function calls kind
        (map local_of locals.now)) }
    ensures calls { IfOk result
        (λ next. next ≡ calls + effects.calls_in_locals (program_in place.entry.table.now) (map local_of locals.now)) }
{
    let mut next = calls;
    let mut rest = locals;
    'locals: while let Some((local, others)) = rest.split_first() {
        let bits = bits_of_local(place.table.words(), kind, &local.shape);
        put_object(place, frames, local.name, bits)?;
        next = put_shape(place, frames, next, &local.shape)?;
        rest = others;
    }
    Ok(next)
}

// Puts those of statements in a row.
#[cycle(frames)]
fn put_row(
    place: Place<'_, '_>,
    frames: &mut Vec<Alloc>,
    calls: u64,
    row: &[Stmt],
) -> Result<u64, AllocError>
    requires few { all_elements_in (unit_of place.table.now).words (statements_of (map statement_of row.now))
        ≤ most_elements }
    requires calls { calls
        + statements.calls_in_all (program_in place.table.now) (statements_of (map statement_of row.now)) < 2 ^ 64 }
    ensures frames { OnOk result
        (map allocation_of frames.new.items
        ≡ map allocation_of frames.old.items
        ++ laws.all_frames_in (program_in place.entry.table.now) place.entry.function calls
        (statements_of (map statement_of row.now))) }
    ensures calls { IfOk result
        (λ next. next
        ≡ calls
        + statements.calls_in_all (program_in place.entry.table.now) (statements_of (map statement_of row.now))) }
{
    let mut next = calls;
    for statement in row {
        next = put_statement(place, frames, next, statement)?;
    }
    Ok(next)
}

// Puts those of the turns of a `for`.
#[cycle(frames)]
fn put_turns(
    place: Place<'_, '_>,
    frames: &mut Vec<Alloc>,
    calls: u64,
    last: &Option<Effect>,
    body: &Stmt,
) -> Result<u64, AllocError>
    requires few { elements_in (unit_of place.table.now).words (statement_of body.now) ≤ most_elements }
    requires calls { calls
        + (statements.calls_if (program_in place.table.now) (option_map effect_of last.now)
        + statements.calls_in (program_in place.table.now) (statement_of body.now)) < 2 ^ 64 }
    ensures frames { OnOk result
        (map allocation_of frames.new.items
        ≡ map allocation_of frames.old.items
        ++ (laws.last_frames (program_in place.entry.table.now) place.entry.function calls
        (option_map effect_of last.now)
        ++ laws.frames_in (program_in place.entry.table.now) place.entry.function
        (calls + statements.calls_if (program_in place.entry.table.now) (option_map effect_of last.now))
        (statement_of body.now))) }
    ensures calls { IfOk result
        (λ next. next
        ≡ calls
        + (statements.calls_if (program_in place.entry.table.now) (option_map effect_of last.now)
        + statements.calls_in (program_in place.entry.table.now) (statement_of body.now))) }
{
    let middle = put_last(place, frames, calls, last)?;
    let next = put_statement(place, frames, middle, body)?;
    Ok(next)
}

// Puts those of a statement.
#[cycle(frames)]
fn put_statement(
    place: Place<'_, '_>,
    frames: &mut Vec<Alloc>,
    calls: u64,
    statement: &Stmt,
) -> Result<u64, AllocError>
    requires few { elements_in (unit_of place.table.now).words (statement_of statement.now) ≤ most_elements }
    requires calls { calls + statements.calls_in (program_in place.table.now) (statement_of statement.now) < 2 ^ 64 }
    ensures frames { OnOk result
        (map allocation_of frames.new.items
        ≡ map allocation_of frames.old.items
        ++ laws.frames_in (program_in place.entry.table.now) place.entry.function calls (statement_of statement.now)) }
    ensures calls { IfOk result
        (λ next. next ≡ calls + statements.calls_in (program_in place.entry.table.now) (statement_of statement.now)) }
{
    match statement {
        Stmt::Declare(_, kind, locals) => put_locals(place, frames, calls, *kind, locals),
        Stmt::Block(body) => put_row(place, frames, calls, body),
        Stmt::If(_, body, otherwise) => match otherwise {
            None => put_statement(place, frames, calls, body),
            Some(otherwise) => {
                let middle = put_statement(place, frames, calls, body)?;
                let next = put_statement(place, frames, middle, otherwise)?;
                Ok(next)
            }
        },
        Stmt::While(_, body) => put_statement(place, frames, calls, body),
        Stmt::Do(body, _) => put_statement(place, frames, calls, body),
        Stmt::For(first, _, last, body) => match first {
            None => put_turns(place, frames, calls, last, body),
            Some(first) => {
                let middle = put_statement(place, frames, calls, first)?;
                let next = put_turns(place, frames, middle, last, body)?;
                Ok(next)
            }
        },
        Stmt::Switch(_, body) => put_row(place, frames, calls, body),
        Stmt::Return(_, value) => put_first(place, frames, calls, value),
        Stmt::Effect(effect) => put_effect(place, frames, calls, effect),
        Stmt::Empty(_) => Ok(calls),
        Stmt::Case(_, _) => Ok(calls),
        Stmt::Default(_) => Ok(calls),
        Stmt::Break(_) => Ok(calls),
        Stmt::Continue(_) => Ok(calls),
    }
}

/// The frames of the locals and results of a function, in the order of the text.
pub fn frames_in(place: Place<'_, '_>, body: &[Stmt]) -> Result<Vec<Alloc>, AllocError>
    requires few { all_elements_in (unit_of place.table.now).words (statements_of (map statement_of body.now))
        ≤ most_elements }
    requires calls { statements.calls_in_all (program_in place.table.now) (statements_of (map statement_of body.now))
        < 2 ^ 64 }
    ensures { IfOk result
        (λ frames. map allocation_of frames.items
        ≡ laws.all_frames_in (program_in place.entry.table.now) place.entry.function 0
        (statements_of (map statement_of body.now))) }
{
    let mut frames = Vec::new(place.alloc);
    put_row(place, &mut frames, 0, body)?;
    Ok(frames)
}

/// The frames of the parameters of a function.
pub fn parameter_frames(
    place: Place<'_, '_>,
    parameters: &[Parameter],
) -> Result<Vec<Alloc>, AllocError>
    ensures { IfOk result
        (λ frames. map allocation_of frames.items
        ≡ laws.parameter_frames (program_in place.entry.table.now) parameters.now) }
{
    let mut frames = Vec::new(place.alloc);
    for parameter in parameters {
        let bits = bits_of_scalar(parameter.kind);
        put_object(place, &mut frames, parameter_token(parameter), bits)?;
    }
    Ok(frames)
}
