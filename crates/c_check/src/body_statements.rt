//! Statements, and those in a row.

ghost use Rattle.std.specs.Prelude.{◌≡◌, [], ◌∷◌, map, OnOk};
ghost use Rattle.std.specs.Option.{option_map};
ghost use Rattle.c_unit.specs.Tree.{expression_of, effect_of, statement_of, statements_of, If, While, Do, For, Switch};
ghost use Rattle.c_rules.specs.Statements.{around_after, in_function, statement_faults, statements_faults};
ghost use Rattle.c_faults.specs.Tells.{Tells};
ghost use Rattle.c_check.specs.Surroundings.{around_of, no_marks};
ghost use Rattle.c_check.specs.Afterwards.{Stays, known_after};

use crate::for_parts::{check_if_condition, check_if_effect};
use crate::labels::Labels;
use crate::leaving::{check_case, check_default, check_leaving, check_return};
use crate::place::{Place, in_function, in_loop, in_switch};
use c_faults::{Stop, check_condition, check_effect, check_locals};
use c_scopes::{Definitions, Scopes};
use c_unit::{Effect, Expr, Outcome, Stmt};
use std::alloc::Global;

/// The first fault of what stands in the outermost block of a function that gives this. The scopes are those
/// where the block begins, of which the innermost has the parameters.
pub fn check_body(
    alloc: Global,
    functions: &Definitions<'_>,
    scopes: &mut Scopes<'_>,
    given: Outcome,
    body: &[Stmt],
) -> Result<(), Stop>
    requires { functions.now.words ≡ scopes.old.words }
    ensures tells { Tells result
        (statements_faults scopes.old.words functions.now.names (in_function given) scopes.old.scopes
        (statements_of (map statement_of body.now))) }
    ensures stays { OnOk result (Stays scopes.old scopes.new) }
{
    let mut labels = Labels::new(alloc);
    check_row(
        alloc,
        functions,
        scopes,
        in_function(given),
        &mut labels,
        body,
    )?;
    Ok(())
}

// The first fault of statements in a row.
#[cycle(statements)]
fn check_row(
    alloc: Global,
    functions: &Definitions<'_>,
    scopes: &mut Scopes<'_>,
    place: Place,
    labels: &mut Labels,
    row: &[Stmt],
) -> Result<(), Stop>
    requires { functions.now.words ≡ scopes.old.words }
    ensures tells { Tells result
        (statements_faults scopes.old.words functions.now.names (around_of place labels.old) scopes.old.scopes
        (statements_of (map statement_of row.now))) }
    ensures stays { OnOk result (Stays scopes.old scopes.new) }
{
    for statement in row {
        check_statement(alloc, functions, scopes, place, labels, statement)?;
    }
    Ok(())
}

// The first fault of statements in a scope of their own.
#[cycle(statements)]
fn check_block(
    alloc: Global,
    functions: &Definitions<'_>,
    scopes: &mut Scopes<'_>,
    place: Place,
    row: &[Stmt],
) -> Result<(), Stop>
    requires { functions.now.words ≡ scopes.old.words }
    ensures tells { Tells result
        (statements_faults scopes.old.words functions.now.names (around_of place no_marks) ([] ∷ scopes.old.scopes)
        (statements_of (map statement_of row.now))) }
    ensures same { OnOk result (scopes.new ≡ scopes.old) }
{
    scopes.enter()?;
    let mut labels = Labels::new(alloc);
    check_row(alloc, functions, scopes, place, &mut labels, row)?;
    scopes.leave()?;
    Ok(())
}

// The first fault of a statement in a scope of its own.
#[cycle(statements)]
fn check_part(
    alloc: Global,
    functions: &Definitions<'_>,
    scopes: &mut Scopes<'_>,
    place: Place,
    part: &Stmt,
) -> Result<(), Stop>
    requires { functions.now.words ≡ scopes.old.words }
    ensures tells { Tells result
        (statement_faults scopes.old.words functions.now.names (around_of place no_marks) ([] ∷ scopes.old.scopes)
        (statement_of part.now)) }
    ensures same { OnOk result (scopes.new ≡ scopes.old) }
{
    scopes.enter()?;
    let mut labels = Labels::new(alloc);
    check_statement(alloc, functions, scopes, place, &mut labels, part)?;
    scopes.leave()?;
    Ok(())
}

// The first fault of a statement.
#[cycle(statements)]
fn check_statement(
    alloc: Global,
    functions: &Definitions<'_>,
    scopes: &mut Scopes<'_>,
    place: Place,
    labels: &mut Labels,
    statement: &Stmt,
) -> Result<(), Stop>
    requires { functions.now.words ≡ scopes.old.words }
    ensures tells { Tells result
        (statement_faults scopes.old.words functions.now.names (around_of place labels.old) scopes.old.scopes
        (statement_of statement.now)) }
    ensures known { OnOk result (scopes.new ≡ known_after scopes.old (statement_of statement.now)) }
    ensures around { OnOk result
        (around_of place labels.new
        ≡ around_after scopes.old.words (around_of place labels.old) (statement_of statement.now)) }
{
    match statement {
        Stmt::Empty(_) => Ok(()),
        Stmt::Declare(_, kind, locals) => check_locals(scopes, functions, *kind, locals),
        Stmt::Block(body) => check_block(alloc, functions, scopes, place, body),
        Stmt::If(condition, body, otherwise) => match otherwise {
            None => check_if(alloc, functions, scopes, place, body, condition),
            Some(otherwise) => match check_if(alloc, functions, scopes, place, body, condition) {
                Ok(()) => check_part(alloc, functions, scopes, place, otherwise),
                Err(stop) => Err(stop),
            },
        },
        Stmt::While(test, body) => check_while(alloc, functions, scopes, place, body, test),
        Stmt::Do(body, condition) => check_do(alloc, functions, scopes, place, body, condition),
        Stmt::For(first, condition, after, body) => match first {
            None => check_turns(alloc, functions, scopes, place, body, condition, after),
            Some(first) => {
                scopes.enter()?;
                let mut inner = Labels::new(alloc);
                check_statement(alloc, functions, scopes, place, &mut inner, first)?;
                check_turns(alloc, functions, scopes, place, body, condition, after)?;
                scopes.leave()?;
                Ok(())
            }
        },
        Stmt::Switch(value, body) => check_switch(alloc, functions, scopes, place, body, value),
        Stmt::Case(token, constant) => check_case(scopes.words(), labels, *token, *constant),
        Stmt::Default(token) => Ok(check_default(labels, *token)?),
        Stmt::Break(token) => Ok(check_leaving(place.may_break, *token)?),
        Stmt::Continue(token) => Ok(check_leaving(place.in_loop, *token)?),
        Stmt::Return(token, value) => check_return(scopes, functions, place.result, *token, value),
        Stmt::Effect(effect) => Ok(check_effect(scopes, functions, effect)?),
    }
}

// The first fault of an `if`.
#[cycle(statements)]
fn check_if(
    alloc: Global,
    functions: &Definitions<'_>,
    scopes: &mut Scopes<'_>,
    place: Place,
    body: &Stmt,
    condition: &Expr,
) -> Result<(), Stop>
    requires { functions.now.words ≡ scopes.old.words }
    ensures tells { Tells result
        (statement_faults scopes.old.words functions.now.names (around_of place no_marks) scopes.old.scopes
        (If (expression_of condition.now) (statement_of body.now))) }
    ensures same { OnOk result (scopes.new ≡ scopes.old) }
{
    check_condition(scopes, condition)?;
    check_part(alloc, functions, scopes, place, body)?;
    Ok(())
}

// The first fault of the turns of a `for`.
#[cycle(statements)]
fn check_turns(
    alloc: Global,
    functions: &Definitions<'_>,
    scopes: &mut Scopes<'_>,
    place: Place,
    body: &Stmt,
    condition: &Option<Expr>,
    after: &Option<Effect>,
) -> Result<(), Stop>
    requires { functions.now.words ≡ scopes.old.words }
    ensures tells { Tells result
        (statement_faults scopes.old.words functions.now.names (around_of place no_marks) scopes.old.scopes
        (For (option_map expression_of condition.now) (option_map effect_of after.now) (statement_of body.now))) }
    ensures same { OnOk result (scopes.new ≡ scopes.old) }
{
    check_if_condition(scopes, condition)?;
    check_if_effect(scopes, functions, after)?;
    check_part(alloc, functions, scopes, in_loop(place), body)?;
    Ok(())
}

// The first fault of a `while`.
#[cycle(statements)]
fn check_while(
    alloc: Global,
    functions: &Definitions<'_>,
    scopes: &mut Scopes<'_>,
    place: Place,
    body: &Stmt,
    condition: &Expr,
) -> Result<(), Stop>
    requires { functions.now.words ≡ scopes.old.words }
    ensures tells { Tells result
        (statement_faults scopes.old.words functions.now.names (around_of place no_marks) scopes.old.scopes
        (While (expression_of condition.now) (statement_of body.now))) }
    ensures same { OnOk result (scopes.new ≡ scopes.old) }
{
    check_condition(scopes, condition)?;
    check_part(alloc, functions, scopes, in_loop(place), body)?;
    Ok(())
}

// The first fault of a `do`.
#[cycle(statements)]
fn check_do(
    alloc: Global,
    functions: &Definitions<'_>,
    scopes: &mut Scopes<'_>,
    place: Place,
    body: &Stmt,
    condition: &Expr,
) -> Result<(), Stop>
    requires { functions.now.words ≡ scopes.old.words }
    ensures tells { Tells result
        (statement_faults scopes.old.words functions.now.names (around_of place no_marks) scopes.old.scopes
        (Do (statement_of body.now) (expression_of condition.now))) }
    ensures same { OnOk result (scopes.new ≡ scopes.old) }
{
    check_part(alloc, functions, scopes, in_loop(place), body)?;
    check_condition(scopes, condition)?;
    Ok(())
}

// The first fault of a `switch`.
#[cycle(statements)]
fn check_switch(
    alloc: Global,
    functions: &Definitions<'_>,
    scopes: &mut Scopes<'_>,
    place: Place,
    body: &[Stmt],
    value: &Expr,
) -> Result<(), Stop>
    requires { functions.now.words ≡ scopes.old.words }
    ensures tells { Tells result
        (statement_faults scopes.old.words functions.now.names (around_of place no_marks) scopes.old.scopes
        (Switch (expression_of value.now) (statements_of (map statement_of body.now)))) }
    ensures same { OnOk result (scopes.new ≡ scopes.old) }
{
    check_condition(scopes, value)?;
    check_block(alloc, functions, scopes, in_switch(place), body)?;
    Ok(())
}
