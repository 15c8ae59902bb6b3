//! Calls, and what is assigned.

ghost use Rattle.std.specs.Prelude.{◌≡◌, ◌∷◌, map, IfOk};
ghost use Rattle.grammar.specs.Rule.{many};
ghost use Rattle.c_unit.specs.Tree.{expression_of, call_of, value_of};
ghost use Rattle.c_grammar.specs.Expressions.{at_call, comma, argument, further_argument, some_arguments, no_arguments};
ghost use Rattle.c_grammar.specs.Expressions.{arguments, open_paren, call, called_value, plain_value, assigned};
ghost use Rattle.c_reader.specs.Reading.{position, Reads};

use crate::expressions::{close_paren, whole_expr};
use crate::measures::rest_of;
use crate::parts::Arguments;
use c_grammar::{Others, Symbol};
use c_reader::{Departure, Reader, begins_with};
use c_unit::{Call, Expr, Value};
use grammar::many;
use std::alloc::AllocError;

fn with_first(first: Expr, others: Vec<Expr>) -> Result<Vec<Expr>, AllocError>
    ensures { IfOk result (λ all. map expression_of all.items ≡ expression_of first ∷ map expression_of others.items) }
{
    let mut all = others;
    all.insert(0, first)?;
    Ok(all)
}

/// Whether a name and a parenthesis come next.
pub fn at_call(reader: &Reader<'_>) -> bool
    ensures { result ≡ at_call (position reader.now) }
{
    match reader.rest.split_first() {
        Some((token, others)) => match token.symbol {
            Symbol::Name => begins_with(reader.text, others, b"("),
            _ => false,
        },
        None => false,
    }
}

#[tactic(auto, unfolding(c_grammar::specs::Expressions::comma))]
pub fn comma(reader: &mut Reader<'_>) -> Result<(), Departure>
    ensures { Reads comma (λ x. x) result reader.old reader.new }
{
    reader.mark(b",", Others::Nothing)?;
    Ok(())
}

#[tactic(auto, unfolding(c_grammar::specs::Expressions::argument))]
pub fn read_argument(reader: &mut Reader<'_>, parens: u32) -> Result<Expr, Departure>
    ensures { Reads (argument parens) expression_of result reader.old reader.new }
{
    let expr = whole_expr(reader, parens, Others::Steps)?;
    reader.before_either(b",", b")", rest_of(false, &expr))?;
    Ok(expr)
}

#[tactic(auto, unfolding(c_grammar::specs::Expressions::further_argument))]
pub fn further_argument(reader: &mut Reader<'_>, parens: u32) -> Result<Expr, Departure>
    ensures { Reads (further_argument parens) expression_of result reader.old reader.new }
{
    comma(reader)?;
    let expr = read_argument(reader, parens)?;
    Ok(expr)
}

#[tactic(auto, unfolding(c_grammar::specs::Expressions::some_arguments))]
pub fn some_arguments(reader: &mut Reader<'_>, parens: u32) -> Result<Vec<Expr>, Departure>
    ensures { Reads (some_arguments parens) (λ x. map expression_of x.items) result reader.old reader.new }
{
    let first = read_argument(reader, parens)?;
    let others = many(reader.alloc, &Arguments { parens }, reader)?;
    close_paren(reader, Others::Nothing)?;
    Ok(with_first(first, others)?)
}

#[tactic(auto, unfolding(c_grammar::specs::Expressions::no_arguments))]
pub fn no_arguments(reader: &mut Reader<'_>) -> Result<Vec<Expr>, Departure>
    ensures { Reads no_arguments (λ x. map expression_of x.items) result reader.old reader.new }
{
    close_paren(reader, Others::Nothing)?;
    Ok(Vec::new(reader.alloc))
}

#[tactic(auto, unfolding(c_grammar::specs::Expressions::arguments, c_grammar::specs::Tokens::sees))]
pub fn read_arguments(reader: &mut Reader<'_>, parens: u32) -> Result<Vec<Expr>, Departure>
    ensures { Reads (arguments parens) (λ x. map expression_of x.items) result reader.old reader.new }
{
    if reader.at(b")") {
        no_arguments(reader)
    } else {
        some_arguments(reader, parens)
    }
}

/// The opening parenthesis of a call.
#[tactic(auto, unfolding(c_grammar::specs::Expressions::open_paren))]
pub fn open_paren(reader: &mut Reader<'_>) -> Result<(), Departure>
    ensures { Reads open_paren (λ x. x) result reader.old reader.new }
{
    reader.mark(b"(", Others::Nothing)?;
    Ok(())
}

/// A call, where a name and a parenthesis come next, in which so many parentheses may be open.
#[tactic(auto, unfolding(c_grammar::specs::Expressions::call))]
pub fn read_call(reader: &mut Reader<'_>, parens: u32) -> Result<Call, Departure>
    ensures { Reads (call parens) call_of result reader.old reader.new }
{
    let token = reader.some_token()?;
    open_paren(reader)?;
    reader.call_frame(token.text)?;
    let arguments = read_arguments(reader, parens)?;
    Ok(Call {
        name: token.number,
        arguments,
    })
}

#[tactic(auto, unfolding(c_grammar::specs::Expressions::called_value))]
pub fn called_value(reader: &mut Reader<'_>, parens: u32) -> Result<Value, Departure>
    ensures { Reads (called_value parens) value_of result reader.old reader.new }
{
    let call = read_call(reader, parens)?;
    Ok(Value::Call(call))
}

#[tactic(auto, unfolding(c_grammar::specs::Expressions::plain_value))]
pub fn plain_value(reader: &mut Reader<'_>, parens: u32, others: Others) -> Result<Value, Departure>
    ensures { Reads (plain_value parens others) value_of result reader.old reader.new }
{
    let expr = whole_expr(reader, parens, others)?;
    Ok(Value::Expr(expr))
}

/// A call, or an expression.
#[tactic(auto, unfolding(c_grammar::specs::Expressions::assigned, c_grammar::specs::Expressions::sees_call))]
pub fn assigned(reader: &mut Reader<'_>, parens: u32, others: Others) -> Result<Value, Departure>
    ensures { Reads (assigned parens others) value_of result reader.old reader.new }
{
    if at_call(reader) {
        called_value(reader, parens.saturating_sub(1))
    } else {
        plain_value(reader, parens, others)
    }
}
