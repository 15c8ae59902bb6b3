//! Statements, made of what stands in them.

ghost use Rattle.std.specs.Prelude.{◌≡◌};
ghost use Rattle.std.specs.Option.{option_map};
ghost use Rattle.c_unit.specs.Tree.{expression_of, effect_of, statement_of, if_of, for_of};
ghost use Rattle.c_statements.specs.Heads.{control_of, control_tree, do_of};

use crate::heads::Control;
use c_unit::{Effect, Expr, Stmt};

fn if_statement(condition: Expr, body: Box<Stmt>, otherwise: Option<Box<Stmt>>) -> Stmt
    ensures { statement_of result
        ≡ if_of (expression_of condition) (statement_of body.value) (option_map (λ s. statement_of s.value) otherwise) }
{
    match otherwise {
        None => Stmt::If(condition, body, None),
        Some(otherwise) => Stmt::If(condition, body, Some(otherwise)),
    }
}

// Of a `do`, with the condition in what was read after its body.
fn do_statement(body: Box<Stmt>, tail: Option<Expr>) -> Stmt
    ensures { statement_of result ≡ do_of (statement_of body.value) (option_map expression_of tail) }
{
    match tail {
        None => Box::into_inner(body),
        Some(condition) => Stmt::Do(body, condition),
    }
}

fn for_statement(
    first: Option<Box<Stmt>>,
    condition: Option<Expr>,
    after: Option<Effect>,
    body: Box<Stmt>,
) -> Stmt
    ensures { statement_of result
        ≡ for_of (option_map (λ s. statement_of s.value) first) (option_map expression_of condition)
        (option_map effect_of after) (statement_of body.value) }
{
    match first {
        None => Stmt::For(None, condition, after, body),
        Some(first) => Stmt::For(Some(first), condition, after, body),
    }
}

/// The statement, from its parts.
pub fn control_statement(
    control: Control,
    body: Box<Stmt>,
    otherwise: Option<Box<Stmt>>,
    tail: Option<Expr>,
) -> Stmt
    ensures { statement_of result
        ≡ control_tree (control_of control) (statement_of body.value) (option_map (λ s. statement_of s.value) otherwise)
        (option_map expression_of tail) }
{
    match control {
        Control::If(condition) => if_statement(condition, body, otherwise),
        Control::While(condition) => Stmt::While(condition, body),
        Control::Do => do_statement(body, tail),
        Control::For(first, condition, after) => for_statement(first, condition, after, body),
    }
}
