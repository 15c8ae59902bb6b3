//! Statements in which no statement stands.

ghost use Rattle.c_unit.specs.Tree.{statement_of};
ghost use Rattle.c_grammar.specs.Statements.{break_after, continue_after, return_nothing, return_value, return_after};
ghost use Rattle.c_grammar.specs.Statements.{leaving_after, empty_statement, effect_statement};
ghost use Rattle.c_reader.specs.Reading.{seen, Reads};

use crate::effects::read_effect;
use crate::locals::{MOST_PARENS, semicolon};
use c_expressions::{assigned, rest_of_value};
use c_grammar::Others;
use c_reader::{Departure, Reader, Token};
use c_unit::Stmt;

#[tactic(auto, unfolding(c_grammar::specs::Statements::break_after))]
fn break_after(reader: &mut Reader<'_>, token: u32) -> Result<Stmt, Departure>
    ensures { Reads (break_after token) statement_of result reader.old reader.new }
{
    semicolon(reader, Others::Nothing)?;
    Ok(Stmt::Break(token))
}

#[tactic(auto, unfolding(c_grammar::specs::Statements::continue_after))]
fn continue_after(reader: &mut Reader<'_>, token: u32) -> Result<Stmt, Departure>
    ensures { Reads (continue_after token) statement_of result reader.old reader.new }
{
    semicolon(reader, Others::Nothing)?;
    Ok(Stmt::Continue(token))
}

#[tactic(auto, unfolding(c_grammar::specs::Statements::return_nothing))]
fn return_nothing(reader: &mut Reader<'_>, token: u32) -> Result<Stmt, Departure>
    ensures { Reads (return_nothing token) statement_of result reader.old reader.new }
{
    semicolon(reader, Others::Nothing)?;
    Ok(Stmt::Return(token, None))
}

#[tactic(auto, unfolding(c_grammar::specs::Statements::return_value))]
fn return_value(reader: &mut Reader<'_>, token: u32) -> Result<Stmt, Departure>
    ensures { Reads (return_value token) statement_of result reader.old reader.new }
{
    let value = assigned(reader, MOST_PARENS, Others::Steps)?;
    semicolon(reader, rest_of_value(true, &value))?;
    Ok(Stmt::Return(token, Some(value)))
}

#[tactic(auto, unfolding(c_grammar::specs::Statements::return_after, c_grammar::specs::Tokens::sees))]
fn return_after(reader: &mut Reader<'_>, token: u32) -> Result<Stmt, Departure>
    ensures { Reads (return_after token) statement_of result reader.old reader.new }
{
    if reader.at(b";") {
        let stmt = return_nothing(reader, token)?;
        Ok(stmt)
    } else {
        let stmt = return_value(reader, token)?;
        Ok(stmt)
    }
}

/// A `break`, `continue` or `return`, after its word.
#[tactic(auto, unfolding(c_grammar::specs::Statements::leaving_after))]
pub fn leaving_after(reader: &mut Reader<'_>, word: &Token<'_>) -> Result<Stmt, Departure>
    ensures { Reads (leaving_after (seen word.now)) statement_of result reader.old reader.new }
{
    if word.text == b"break".as_slice() {
        break_after(reader, word.number)
    } else if word.text == b"continue".as_slice() {
        continue_after(reader, word.number)
    } else {
        return_after(reader, word.number)
    }
}

/// A semicolon alone.
#[tactic(auto, unfolding(c_grammar::specs::Statements::empty_statement))]
pub fn empty_statement(reader: &mut Reader<'_>) -> Result<Stmt, Departure>
    ensures { Reads empty_statement statement_of result reader.old reader.new }
{
    let token = reader.mark(b";", Others::Nothing)?;
    Ok(Stmt::Empty(token))
}

/// An assignment, a step or a call, with its semicolon.
#[tactic(auto, unfolding(c_grammar::specs::Statements::effect_statement))]
pub fn effect_statement(reader: &mut Reader<'_>, others: Others) -> Result<Stmt, Departure>
    ensures { Reads (effect_statement others) statement_of result reader.old reader.new }
{
    let effect = read_effect(reader, MOST_PARENS, others, false)?;
    semicolon(reader, Others::Nothing)?;
    Ok(Stmt::Effect(effect))
}
