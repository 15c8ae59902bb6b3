//! What stands in the parentheses of `if`, of loops and of `switch`.

ghost use Rattle.std.specs.Option.{option_map};
ghost use Rattle.c_unit.specs.Tree.{expression_of, effect_of, statement_of};
ghost use Rattle.c_grammar.specs.Statements.{controlling, while_word, empty_first, declared_first, effect_first};
ghost use Rattle.c_grammar.specs.Statements.{some_first, for_first, empty_condition, some_condition, for_condition};
ghost use Rattle.c_grammar.specs.Statements.{empty_last, some_last, for_last, switch_value};
ghost use Rattle.c_reader.specs.Reading.{Reads};

use crate::effects::read_effect;
use crate::locals::{MOST_PARENS, declaration, semicolon};
use c_expressions::{close_paren, open_paren, read_condition, rest_of, whole_expr};
use c_grammar::Others;
use c_reader::{Departure, Reader};
use c_unit::{Effect, Expr, Stmt};

/// ( condition )
#[tactic(auto, unfolding(c_grammar::specs::Statements::controlling))]
pub fn controlling(reader: &mut Reader<'_>) -> Result<Expr, Departure>
    ensures { Reads controlling expression_of result reader.old reader.new }
{
    open_paren(reader)?;
    let condition = read_condition(reader, MOST_PARENS - 1)?;
    close_paren(reader, rest_of(true, &condition))?;
    Ok(condition)
}

#[tactic(auto, unfolding(c_grammar::specs::Statements::while_word))]
pub fn while_word(reader: &mut Reader<'_>) -> Result<u32, Departure>
    ensures { Reads while_word (λ x. x) result reader.old reader.new }
{
    reader.mark(b"while", Others::Nothing)
}

#[tactic(auto, unfolding(c_grammar::specs::Statements::empty_first))]
fn empty_first(reader: &mut Reader<'_>) -> Result<Option<Box<Stmt>>, Departure>
    ensures { Reads empty_first (option_map (λ s. statement_of s.value)) result reader.old reader.new }
{
    semicolon(reader, Others::Nothing)?;
    Ok(None)
}

#[tactic(auto, unfolding(c_grammar::specs::Statements::declared_first))]
fn declared_first(reader: &mut Reader<'_>) -> Result<Option<Box<Stmt>>, Departure>
    ensures { Reads declared_first (option_map (λ s. statement_of s.value)) result reader.old reader.new }
{
    let declared = declaration(reader)?;
    Ok(Some(Box::new(reader.alloc, declared)?))
}

#[tactic(auto, unfolding(c_grammar::specs::Statements::effect_first))]
fn effect_first(reader: &mut Reader<'_>) -> Result<Option<Box<Stmt>>, Departure>
    ensures { Reads effect_first (option_map (λ s. statement_of s.value)) result reader.old reader.new }
{
    let effect = read_effect(reader, MOST_PARENS - 1, Others::Nothing, false)?;
    semicolon(reader, Others::Nothing)?;
    Ok(Some(Box::new(reader.alloc, Stmt::Effect(effect))?))
}

#[tactic(auto, unfolding(c_grammar::specs::Statements::some_first))]
fn some_first(reader: &mut Reader<'_>) -> Result<Option<Box<Stmt>>, Departure>
    ensures { Reads some_first (option_map (λ s. statement_of s.value)) result reader.old reader.new }
{
    if reader.at_specifier() {
        let first = declared_first(reader)?;
        Ok(first)
    } else {
        let first = effect_first(reader)?;
        Ok(first)
    }
}

/// The first part of a `for`, with its semicolon.
#[tactic(auto, unfolding(c_grammar::specs::Statements::for_first, c_grammar::specs::Tokens::sees))]
pub fn for_first(reader: &mut Reader<'_>) -> Result<Option<Box<Stmt>>, Departure>
    ensures { Reads for_first (option_map (λ s. statement_of s.value)) result reader.old reader.new }
{
    if reader.at(b";") {
        let first = empty_first(reader)?;
        Ok(first)
    } else {
        let first = some_first(reader)?;
        Ok(first)
    }
}

#[tactic(auto, unfolding(c_grammar::specs::Statements::empty_condition))]
fn empty_condition(reader: &mut Reader<'_>) -> Result<Option<Expr>, Departure>
    ensures { Reads empty_condition (option_map expression_of) result reader.old reader.new }
{
    semicolon(reader, Others::Nothing)?;
    Ok(None)
}

#[tactic(auto, unfolding(c_grammar::specs::Statements::some_condition))]
fn some_condition(reader: &mut Reader<'_>) -> Result<Option<Expr>, Departure>
    ensures { Reads some_condition (option_map expression_of) result reader.old reader.new }
{
    let condition = read_condition(reader, MOST_PARENS - 1)?;
    semicolon(reader, rest_of(true, &condition))?;
    Ok(Some(condition))
}

/// The condition of a `for`, with its semicolon.
#[tactic(auto, unfolding(c_grammar::specs::Statements::for_condition, c_grammar::specs::Tokens::sees))]
pub fn for_condition(reader: &mut Reader<'_>) -> Result<Option<Expr>, Departure>
    ensures { Reads for_condition (option_map expression_of) result reader.old reader.new }
{
    if reader.at(b";") {
        let condition = empty_condition(reader)?;
        Ok(condition)
    } else {
        let condition = some_condition(reader)?;
        Ok(condition)
    }
}

#[tactic(auto, unfolding(c_grammar::specs::Statements::empty_last))]
fn empty_last(reader: &mut Reader<'_>) -> Result<Option<Effect>, Departure>
    ensures { Reads empty_last (option_map effect_of) result reader.old reader.new }
{
    close_paren(reader, Others::Nothing)?;
    Ok(None)
}

#[tactic(auto, unfolding(c_grammar::specs::Statements::some_last))]
fn some_last(reader: &mut Reader<'_>) -> Result<Option<Effect>, Departure>
    ensures { Reads some_last (option_map effect_of) result reader.old reader.new }
{
    let effect = read_effect(reader, MOST_PARENS - 1, Others::Nothing, true)?;
    close_paren(reader, Others::Nothing)?;
    Ok(Some(effect))
}

/// The last part of a `for`, with its parenthesis.
#[tactic(auto, unfolding(c_grammar::specs::Statements::for_last, c_grammar::specs::Tokens::sees))]
pub fn for_last(reader: &mut Reader<'_>) -> Result<Option<Effect>, Departure>
    ensures { Reads for_last (option_map effect_of) result reader.old reader.new }
{
    if reader.at(b")") {
        let effect = empty_last(reader)?;
        Ok(effect)
    } else {
        let effect = some_last(reader)?;
        Ok(effect)
    }
}

/// The value of a `switch`, in parentheses.
#[tactic(auto, unfolding(c_grammar::specs::Statements::switch_value))]
pub fn switch_value(reader: &mut Reader<'_>) -> Result<Expr, Departure>
    ensures { Reads switch_value expression_of result reader.old reader.new }
{
    open_paren(reader)?;
    let value = whole_expr(reader, MOST_PARENS - 1, Others::Steps)?;
    close_paren(reader, rest_of(true, &value))?;
    Ok(value)
}
