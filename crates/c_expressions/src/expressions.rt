//! Expressions. Reading one goes as deep as operators and parentheses may be nested.

ghost use Rattle.std.specs.Prelude.{◌≡◌, Result};
ghost use Rattle.grammar.specs.Chain.{grow};
ghost use Rattle.c_unit.specs.Tree.{expression_of};
ghost use Rattle.c_grammar.specs.Expressions.{at_operation, operator, shallow, some_depth, one_paren, operation};
ghost use Rattle.c_grammar.specs.Expressions.{at_index, index, indexed, open_bracket, close_bracket, close_paren};
ghost use Rattle.c_grammar.specs.Expressions.{parenthesised, after_cast_type, cast_type, cast, bracketed};
ghost use Rattle.c_grammar.specs.Expressions.{bracketed_indexed, prefixed, lead, operand_after, operand, expr};
ghost use Rattle.c_grammar.specs.Expressions.{inner_of, deeper_of, whole_expr, condition, target};
ghost use Rattle.c_reader.specs.Reading.{position, Reads};

use crate::measures::{
    cast_others, is_logical, logical_operand, logical_right, may_stand, rank_of, rest_of,
    takes_cast,
};
use c_grammar::{Casts, Lead, Others, Setting, Symbol, lead_of};
use c_reader::{Departure, Reader, misfit};
use c_unit::{Binary, Expr, Scalar, Unary};
use flow_base::Which;

const MOST_DEPTH: u32 = 10;

const MOST_PARENS: u32 = 64;

// What might stand after the type of a cast, where a star stands in it or not.
fn after_cast_type(pointer: bool) -> Others
    ensures { result ≡ after_cast_type pointer }
{
    if pointer {
        Others::StarsAndBrackets
    } else {
        Others::Brackets
    }
}

// Whether an operator comes next that may take this left side.
pub fn at_operation(reader: &Reader<'_>, min: u32, logical: bool, left: &Expr) -> bool
    ensures { result ≡ at_operation min logical (expression_of left.now) (position reader.now) }
{
    match reader.rest.first() {
        Some(token) => match token.symbol {
            Symbol::Operator(op) => may_stand(min, logical, left, op),
            _ => false,
        },
        None => false,
    }
}

#[tactic(auto, unfolding(c_grammar::specs::Expressions::operator))]
pub fn read_operator(reader: &mut Reader<'_>) -> Result<(Binary, u32), Departure>
    ensures { Reads operator (λ x. x) result reader.old reader.new }
{
    let token = reader.token()?;
    match token.symbol {
        Symbol::Operator(op) => Ok((op, token.number)),
        _ => Err(misfit(&token, Others::Nothing)),
    }
}

// One more operator may take in this operand.
#[tactic(auto, unfolding(c_grammar::specs::Expressions::shallow))]
pub fn shallow(reader: &mut Reader<'_>, depth: u32, expr: &Expr) -> Result<(), Departure>
    ensures { Reads (shallow depth (expression_of expr.now)) (λ x. x) result reader.old reader.new }
{
    if 0 < depth && expr.is_within(depth - 1) {
        Ok(())
    } else {
        Err(Departure::Limit(Which::Depth, u64::from(MOST_DEPTH) + 1))
    }
}

#[tactic(auto, unfolding(c_grammar::specs::Expressions::some_depth))]
pub fn some_depth(reader: &mut Reader<'_>, depth: u32) -> Result<(), Departure>
    ensures { Reads (some_depth depth) (λ x. x) result reader.old reader.new }
{
    if 0 < depth {
        Ok(())
    } else {
        Err(Departure::Limit(Which::Depth, u64::from(MOST_DEPTH) + 1))
    }
}

#[tactic(auto, unfolding(c_grammar::specs::Expressions::one_paren))]
pub fn one_paren(reader: &mut Reader<'_>, parens: u32) -> Result<(), Departure>
    ensures { Reads (one_paren parens) (λ x. x) result reader.old reader.new }
{
    if 0 < parens {
        Ok(())
    } else {
        Err(Departure::Limit(Which::Parens, u64::from(MOST_PARENS) + 1))
    }
}

#[tactic(auto, unfolding(c_grammar::specs::Expressions::open_bracket))]
pub fn open_bracket(reader: &mut Reader<'_>) -> Result<u32, Departure>
    ensures { Reads open_bracket (λ x. x) result reader.old reader.new }
{
    let number = reader.mark(b"[", Others::Nothing)?;
    Ok(number)
}

#[tactic(auto, unfolding(c_grammar::specs::Expressions::close_bracket))]
pub fn close_bracket(reader: &mut Reader<'_>, others: Others) -> Result<(), Departure>
    ensures { Reads (close_bracket others) (λ x. x) result reader.old reader.new }
{
    reader.mark(b"]", others)?;
    Ok(())
}

/// A closing parenthesis, where these others might stand.
#[tactic(auto, unfolding(c_grammar::specs::Expressions::close_paren))]
pub fn close_paren(reader: &mut Reader<'_>, others: Others) -> Result<(), Departure>
    ensures { Reads (close_paren others) (λ x. x) result reader.old reader.new }
{
    reader.mark(b")", others)?;
    Ok(())
}

// Whether an index comes next, after this base.
pub fn at_index(reader: &Reader<'_>, base: &Expr) -> bool
    ensures { result ≡ at_index (expression_of base.now) (position reader.now) }
{
    reader.at(b"[") && !is_logical(base)
}

// The first token of an operand.
#[tactic(auto, unfolding(c_grammar::specs::Expressions::lead))]
pub fn read_lead(reader: &mut Reader<'_>, others: Others) -> Result<(Lead, u32), Departure>
    ensures { Reads (lead others) (λ x. x) result reader.old reader.new }
{
    let token = reader.token()?;
    match lead_of(token.symbol) {
        Some(lead) => Ok((lead, token.number)),
        None => Err(misfit(&token, others)),
    }
}

// The type of a cast, with the parenthesis after it.
#[tactic(auto, unfolding(c_grammar::specs::Expressions::cast_type, c_grammar::specs::Tokens::sees))]
pub fn cast_type(reader: &mut Reader<'_>) -> Result<Scalar, Departure>
    ensures { Reads cast_type (λ x. x) result reader.old reader.new }
{
    let integer = reader.integer_type(Setting::Cast)?;
    let pointer = reader.at(b"*");
    let kind = reader.pointer_stars(pointer, integer)?;
    close_paren(reader, after_cast_type(pointer))?;
    Ok(kind)
}

/// An expression with at most so many open parentheses and nested operators, all of which bind as
/// tightly as `min` at least.
#[cycle(expr)]
#[tactic(auto, using(crate::proofs::Levels::expr_is), unfolding(c_grammar::specs::Expressions::expr_of))]
pub fn read_expr(
    reader: &mut Reader<'_>,
    parens: u32,
    depth: u32,
    min: u32,
    logical: bool,
    casts: Casts,
    others: Others,
) -> Result<Expr, Departure>
    ensures { Reads (expr parens depth min logical casts others) expression_of result reader.old reader.new }
{
    let left = read_operand(reader, parens, depth, logical, casts, others)?;
    let all = operations(reader, left, parens, depth, min, logical)?;
    Ok(all)
}

// As many operators as may stand here, after a left side.
#[cycle(expr)]
pub fn operations(
    reader: &mut Reader<'_>,
    left: Expr,
    parens: u32,
    depth: u32,
    min: u32,
    logical: bool,
) -> Result<Expr, Departure>
    ensures { Reads
        (grow (at_operation min logical) (operation depth (deeper_of parens depth) logical) (expression_of left))
        expression_of result reader.old reader.new }
{
    let mut value = left;
    'chain: while at_operation(reader, min, logical, &value) {
        match operation(reader, value, parens, depth, logical) {
            Ok(next) => value = next,
            Err(error) => return Err(error),
        }
    }
    Ok(value)
}

// An operator and its right side.
#[cycle(expr)]
#[tactic(auto, unfolding(c_grammar::specs::Expressions::operation))]
pub fn operation(
    reader: &mut Reader<'_>,
    left: Expr,
    parens: u32,
    depth: u32,
    logical: bool,
) -> Result<Expr, Departure>
    ensures { Reads (operation depth (deeper_of parens depth) logical (expression_of left)) expression_of result
        reader.old reader.new }
{
    let (op, number) = read_operator(reader)?;
    shallow(reader, depth, &left)?;
    let right = deeper(
        reader,
        parens,
        depth,
        rank_of(op) + 1,
        logical_right(logical, op),
    )?;
    Ok(Expr::Binary(
        op,
        number,
        Box::new(reader.alloc, left)?,
        Box::new(reader.alloc, right)?,
    ))
}

// An operand of operators.
#[cycle(expr)]
#[tactic(auto, unfolding(c_grammar::specs::Expressions::operand))]
pub fn read_operand(
    reader: &mut Reader<'_>,
    parens: u32,
    depth: u32,
    logical: bool,
    casts: Casts,
    others: Others,
) -> Result<Expr, Departure>
    ensures { Reads (operand parens depth (inner_of parens depth) (deeper_of parens depth) logical casts others)
        expression_of result reader.old reader.new }
{
    let (lead, number) = read_lead(reader, others)?;
    let expr = operand_after(reader, parens, depth, logical, casts, lead, number)?;
    Ok(expr)
}

#[cycle(expr)]
#[tactic(auto, unfolding(c_grammar::specs::Expressions::operand_after))]
pub fn operand_after(
    reader: &mut Reader<'_>,
    parens: u32,
    depth: u32,
    logical: bool,
    casts: Casts,
    lead: Lead,
    number: u32,
) -> Result<Expr, Departure>
    ensures { Reads
        (operand_after parens depth (inner_of parens depth) (deeper_of parens depth) logical casts lead number)
        expression_of result reader.old reader.new }
{
    match lead {
        Lead::Name => indexed(reader, Expr::Name(number), parens, depth),
        Lead::Constant => indexed(reader, Expr::Constant(number), parens, depth),
        Lead::Paren => bracketed_indexed(reader, parens, depth, logical, casts, number),
        Lead::Prefix(op) => prefixed(reader, parens, depth, logical, op, number),
    }
}

// A base with as many indices as there are.
#[cycle(expr)]
pub fn indexed(
    reader: &mut Reader<'_>,
    base: Expr,
    parens: u32,
    depth: u32,
) -> Result<Expr, Departure>
    ensures { Reads (indexed depth (deeper_of parens depth) (expression_of base)) expression_of result reader.old
        reader.new }
{
    let mut value = base;
    'chain: while at_index(reader, &value) {
        match read_index(reader, value, parens, depth) {
            Ok(next) => value = next,
            Err(error) => return Err(error),
        }
    }
    Ok(value)
}

#[cycle(expr)]
#[tactic(auto, unfolding(c_grammar::specs::Expressions::index))]
pub fn read_index(
    reader: &mut Reader<'_>,
    base: Expr,
    parens: u32,
    depth: u32,
) -> Result<Expr, Departure>
    ensures { Reads (index depth (deeper_of parens depth) (expression_of base)) expression_of result reader.old
        reader.new }
{
    let number = open_bracket(reader)?;
    shallow(reader, depth, &base)?;
    let index = deeper(reader, parens, depth, 1, false)?;
    close_bracket(reader, rest_of(true, &index))?;
    Ok(Expr::Index(
        Box::new(reader.alloc, base)?,
        number,
        Box::new(reader.alloc, index)?,
    ))
}

#[cycle(expr)]
#[tactic(auto, unfolding(c_grammar::specs::Expressions::bracketed_indexed))]
pub fn bracketed_indexed(
    reader: &mut Reader<'_>,
    parens: u32,
    depth: u32,
    logical: bool,
    casts: Casts,
    number: u32,
) -> Result<Expr, Departure>
    ensures { Reads
        (bracketed_indexed parens depth (inner_of parens depth) (deeper_of parens depth) logical casts number)
        expression_of result reader.old reader.new }
{
    let base = bracketed(reader, parens, depth, logical, casts, number)?;
    let expr = indexed(reader, base, parens, depth)?;
    Ok(expr)
}

// A cast, or an expression in parentheses, after its parenthesis.
#[cycle(expr)]
#[tactic(auto, unfolding(c_grammar::specs::Expressions::bracketed))]
pub fn bracketed(
    reader: &mut Reader<'_>,
    parens: u32,
    depth: u32,
    logical: bool,
    casts: Casts,
    number: u32,
) -> Result<Expr, Departure>
    ensures { Reads (bracketed parens depth (inner_of parens depth) (deeper_of parens depth) logical casts number)
        expression_of result reader.old reader.new }
{
    one_paren(reader, parens)?;
    if takes_cast(casts) && reader.at_type() {
        read_cast(reader, parens, depth, number)
    } else {
        parenthesised(reader, parens, depth, logical, cast_others(casts), number)
    }
}

#[cycle(expr)]
#[tactic(auto, unfolding(c_grammar::specs::Expressions::cast))]
pub fn read_cast(
    reader: &mut Reader<'_>,
    parens: u32,
    depth: u32,
    number: u32,
) -> Result<Expr, Departure>
    ensures { Reads (cast depth (deeper_of parens depth) number) expression_of result reader.old reader.new }
{
    some_depth(reader, depth)?;
    let kind = cast_type(reader)?;
    let operand = deeper(reader, parens, depth, 11, false)?;
    Ok(Expr::Cast(number, kind, Box::new(reader.alloc, operand)?))
}

#[cycle(expr)]
#[tactic(auto, unfolding(c_grammar::specs::Expressions::parenthesised))]
pub fn parenthesised(
    reader: &mut Reader<'_>,
    parens: u32,
    depth: u32,
    logical: bool,
    others: Others,
    number: u32,
) -> Result<Expr, Departure>
    ensures { Reads (parenthesised (inner_of parens depth) logical others number) expression_of result reader.old
        reader.new }
{
    let inner = read_inner(reader, parens, depth, logical, others)?;
    close_paren(reader, rest_of(true, &inner))?;
    Ok(Expr::Parentheses(number, Box::new(reader.alloc, inner)?))
}

#[cycle(expr)]
#[tactic(auto, unfolding(c_grammar::specs::Expressions::prefixed))]
pub fn prefixed(
    reader: &mut Reader<'_>,
    parens: u32,
    depth: u32,
    logical: bool,
    op: Unary,
    number: u32,
) -> Result<Expr, Departure>
    ensures { Reads (prefixed depth (deeper_of parens depth) logical op number) expression_of result reader.old
        reader.new }
{
    some_depth(reader, depth)?;
    let operand = deeper(reader, parens, depth, 11, logical_operand(logical, op))?;
    Ok(Expr::Unary(op, number, Box::new(reader.alloc, operand)?))
}

// What stands in parentheses.
#[cycle(expr)]
#[tactic(auto, using(crate::proofs::Levels::inner_none, crate::proofs::Levels::inner_more))]
pub fn read_inner(
    reader: &mut Reader<'_>,
    parens: u32,
    depth: u32,
    logical: bool,
    others: Others,
) -> Result<Expr, Departure>
    ensures { Reads (inner_of parens depth logical others) expression_of result reader.old reader.new }
{
    if parens == 0 {
        Err(Departure::Limit(Which::Parens, u64::from(MOST_PARENS) + 1))
    } else {
        read_expr(reader, parens - 1, depth, 1, logical, Casts::Taken, others)
    }
}

// What stands in an operator.
#[cycle(expr)]
#[tactic(auto, using(crate::proofs::Levels::deeper_none, crate::proofs::Levels::deeper_more))]
pub fn deeper(
    reader: &mut Reader<'_>,
    parens: u32,
    depth: u32,
    min: u32,
    logical: bool,
) -> Result<Expr, Departure>
    ensures { Reads (deeper_of parens depth min logical) expression_of result reader.old reader.new }
{
    if depth == 0 {
        Err(Departure::Limit(Which::Depth, u64::from(MOST_DEPTH) + 1))
    } else {
        read_expr(
            reader,
            parens,
            depth - 1,
            min,
            logical,
            Casts::Taken,
            Others::Steps,
        )
    }
}

/// An expression that stands in no other, where so many parentheses may be open.
#[tactic(auto, unfolding(c_grammar::specs::Expressions::whole_expr))]
pub fn whole_expr(reader: &mut Reader<'_>, parens: u32, others: Others) -> Result<Expr, Departure>
    ensures { Reads (whole_expr parens others) expression_of result reader.old reader.new }
{
    read_expr(reader, parens, MOST_DEPTH, 1, false, Casts::Taken, others)
}

/// One in which `&&` and `||` may stand.
#[tactic(auto, unfolding(c_grammar::specs::Expressions::condition))]
pub fn read_condition(reader: &mut Reader<'_>, parens: u32) -> Result<Expr, Departure>
    ensures { Reads (condition parens) expression_of result reader.old reader.new }
{
    read_expr(
        reader,
        parens,
        MOST_DEPTH,
        1,
        true,
        Casts::Taken,
        Others::Steps,
    )
}

/// What is assigned to or stepped.
#[tactic(auto, unfolding(c_grammar::specs::Expressions::target))]
pub fn read_target(
    reader: &mut Reader<'_>,
    parens: u32,
    casts: Casts,
    others: Others,
) -> Result<Expr, Departure>
    ensures { Reads (target parens casts others) expression_of result reader.old reader.new }
{
    read_expr(reader, parens, MOST_DEPTH, 11, false, casts, others)
}
