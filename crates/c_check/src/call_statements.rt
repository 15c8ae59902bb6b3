//! Calls in statements.

ghost use Rattle.std.specs.Prelude.{◌≡◌, ◌<◌, ◌^◌, ◌++◌, map, length, OnOk};
ghost use Rattle.c_unit.specs.Tree.{statement_of, statements_of};
ghost use Rattle.c_rules.specs.Recursion.{calls_in, called_in, numbers_at};
ghost use Rattle.c_check.specs.OptionalStatements.{stated, calls_if_stated};

use crate::expression_calls::{note_effect, note_if_done, note_if_valued, note_locals};
use c_scopes::Definitions;
use c_unit::Stmt;
use std::alloc::AllocError;

/// Notes the calls of statements in a row. Goes as deep as statements stand in one another.
#[cycle(statements)]
#[tactic(auto, using(crate::proofs::Numbering::numbering))]
pub fn note_statements(
    functions: &Definitions<'_>,
    row: &mut Vec<u32>,
    body: &[Stmt],
) -> Result<(), AllocError>
    requires { length functions.now.names < 2 ^ 32 }
    ensures { OnOk result
        (row.new.items
        ≡ row.old.items
        ++ numbers_at functions.now.words functions.now.names (called_in (statements_of (map statement_of body.now)))) }
{
    for s in body {
        note_statement(functions, row, s)?;
    }
    Ok(())
}

// Notes the calls of one.
#[cycle(statements)]
#[tactic(auto, using(crate::proofs::Numbering::numbering))]
fn note_statement(
    functions: &Definitions<'_>,
    row: &mut Vec<u32>,
    s: &Stmt,
) -> Result<(), AllocError>
    requires { length functions.now.names < 2 ^ 32 }
    ensures { OnOk result
        (row.new.items
        ≡ row.old.items ++ numbers_at functions.now.words functions.now.names (calls_in (statement_of s.now))) }
{
    match s {
        Stmt::Empty(_) => Ok(()),
        Stmt::Declare(_, _, locals) => note_locals(functions, row, locals),
        Stmt::Block(body) => note_statements(functions, row, body),
        Stmt::If(_, body, otherwise) => {
            note_statement(functions, row, body)?;
            note_if_stated(functions, row, otherwise)?;
            Ok(())
        }
        Stmt::While(_, body) => note_statement(functions, row, body),
        Stmt::Do(body, _) => note_statement(functions, row, body),
        Stmt::For(first, _, after, body) => {
            note_if_stated(functions, row, first)?;
            note_if_done(functions, row, after)?;
            note_statement(functions, row, body)?;
            Ok(())
        }
        Stmt::Switch(_, body) => note_statements(functions, row, body),
        Stmt::Case(_, _) => Ok(()),
        Stmt::Default(_) => Ok(()),
        Stmt::Break(_) => Ok(()),
        Stmt::Continue(_) => Ok(()),
        Stmt::Return(_, value) => note_if_valued(functions, row, value),
        Stmt::Effect(effect) => note_effect(functions, row, effect),
    }
}

// Notes the calls of one, if there is one.
#[cycle(statements)]
fn note_if_stated(
    functions: &Definitions<'_>,
    row: &mut Vec<u32>,
    s: &Option<Box<Stmt>>,
) -> Result<(), AllocError>
    requires { length functions.now.names < 2 ^ 32 }
    ensures { OnOk result
        (row.new.items
        ≡ row.old.items ++ numbers_at functions.now.words functions.now.names (calls_if_stated (stated s.now))) }
{
    match s {
        Some(s) => note_statement(functions, row, s),
        None => Ok(()),
    }
}
