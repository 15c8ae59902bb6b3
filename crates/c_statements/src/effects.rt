//! What statements and parts of a `for` do: assignments, steps and calls.

ghost use Rattle.c_unit.specs.Tree.{expression_of, effect_of};
ghost use Rattle.c_grammar.specs.Tokens.{before};
ghost use Rattle.c_grammar.specs.Statements.{effect_end, call_effect, step, prefix_step, assigning_mark, assign};
ghost use Rattle.c_grammar.specs.Statements.{update, postfix_step, effect_after, target_effect, other_effect, effect};
ghost use Rattle.c_reader.specs.Reading.{Reads};

use c_expressions::{
    assigned, at_call, is_postfix, read_call, read_target, rest_after_postfix, rest_of,
    rest_of_value, whole_expr,
};
use c_grammar::{Assigning, Casts, Others, Symbol};
use c_reader::{Departure, Reader, misfit};
use c_unit::{Binary, Effect, Expr};

// What ends an effect comes next.
fn before_end(reader: &mut Reader<'_>, last: bool, others: Others) -> Result<(), Departure>
    ensures { Reads (before (effect_end last) others) (λ x. x) result reader.old reader.new }
{
    if last {
        reader.before(b")", others)
    } else {
        reader.before(b";", others)
    }
}

#[tactic(auto, unfolding(c_grammar::specs::Statements::call_effect))]
fn call_effect(reader: &mut Reader<'_>, parens: u32, last: bool) -> Result<Effect, Departure>
    ensures { Reads (call_effect parens last) effect_of result reader.old reader.new }
{
    let call = read_call(reader, parens)?;
    before_end(reader, last, rest_after_postfix(true))?;
    Ok(Effect::Call(call))
}

// `++` or `--`.
#[tactic(auto, unfolding(c_grammar::specs::Statements::step))]
fn read_step(reader: &mut Reader<'_>) -> Result<(bool, u32), Departure>
    ensures { Reads step (λ x. x) result reader.old reader.new }
{
    let token = reader.token()?;
    match token.symbol {
        Symbol::Step(up) => Ok((up, token.number)),
        _ => Err(misfit(&token, Others::Nothing)),
    }
}

#[tactic(auto, unfolding(c_grammar::specs::Statements::prefix_step))]
fn prefix_step(reader: &mut Reader<'_>, parens: u32, last: bool) -> Result<Effect, Departure>
    ensures { Reads (prefix_step parens last) effect_of result reader.old reader.new }
{
    let (up, token) = read_step(reader)?;
    let operand = read_target(reader, parens, Casts::Refused, Others::Steps)?;
    before_end(reader, last, rest_of(true, &operand))?;
    Ok(Effect::Step(operand, up, token))
}

// `=`, an operator with `=`, or a step after a postfix expression.
#[tactic(auto, unfolding(c_grammar::specs::Statements::assigning_mark))]
fn assigning_mark(
    reader: &mut Reader<'_>,
    to: &Expr,
    last: bool,
) -> Result<(Assigning, u32), Departure>
    ensures { Reads (assigning_mark (expression_of to.now) last) (λ x. x) result reader.old reader.new }
{
    let others = Others::RestOrEnd { last };
    let token = reader.token()?;
    match token.symbol {
        Symbol::Assign => Ok((Assigning::Assign, token.number)),
        Symbol::Update(op) => Ok((Assigning::Update(op), token.number)),
        Symbol::Step(up) => {
            if is_postfix(to) {
                Ok((Assigning::Step(up), token.number))
            } else {
                Err(misfit(&token, others))
            }
        }
        _ => Err(misfit(&token, others)),
    }
}

#[tactic(auto, unfolding(c_grammar::specs::Statements::assign))]
fn assign(
    reader: &mut Reader<'_>,
    parens: u32,
    last: bool,
    to: Expr,
    token: u32,
) -> Result<Effect, Departure>
    ensures { Reads (assign parens last (expression_of to) token) effect_of result reader.old reader.new }
{
    let value = assigned(reader, parens, Others::Steps)?;
    before_end(reader, last, rest_of_value(true, &value))?;
    Ok(Effect::Assign(to, token, value))
}

#[tactic(auto, unfolding(c_grammar::specs::Statements::update))]
fn update(
    reader: &mut Reader<'_>,
    parens: u32,
    last: bool,
    to: Expr,
    op: Binary,
    token: u32,
) -> Result<Effect, Departure>
    ensures { Reads (update parens last (expression_of to) op token) effect_of result reader.old reader.new }
{
    let operand = whole_expr(reader, parens, Others::Steps)?;
    before_end(reader, last, rest_of(true, &operand))?;
    Ok(Effect::Update(to, op, token, operand))
}

#[tactic(auto, unfolding(c_grammar::specs::Statements::postfix_step))]
fn postfix_step(
    reader: &mut Reader<'_>,
    last: bool,
    to: Expr,
    up: bool,
    token: u32,
) -> Result<Effect, Departure>
    ensures { Reads (postfix_step last (expression_of to) up token) effect_of result reader.old reader.new }
{
    before_end(reader, last, rest_after_postfix(true))?;
    Ok(Effect::Step(to, up, token))
}

#[tactic(auto, unfolding(c_grammar::specs::Statements::effect_after))]
fn effect_after(
    reader: &mut Reader<'_>,
    parens: u32,
    last: bool,
    to: Expr,
    assigning: Assigning,
    token: u32,
) -> Result<Effect, Departure>
    ensures { Reads (effect_after parens last (expression_of to) assigning token) effect_of result reader.old
        reader.new }
{
    match assigning {
        Assigning::Assign => assign(reader, parens, last, to, token),
        Assigning::Update(op) => update(reader, parens, last, to, op, token),
        Assigning::Step(up) => postfix_step(reader, last, to, up, token),
    }
}

// What begins with what is assigned to or stepped.
#[tactic(auto, unfolding(c_grammar::specs::Statements::target_effect))]
fn target_effect(
    reader: &mut Reader<'_>,
    parens: u32,
    others: Others,
    last: bool,
) -> Result<Effect, Departure>
    ensures { Reads (target_effect parens others last) effect_of result reader.old reader.new }
{
    let to = read_target(reader, parens, Casts::Outside, others)?;
    let (assigning, token) = assigning_mark(reader, &to, last)?;
    let effect = effect_after(reader, parens, last, to, assigning, token)?;
    Ok(effect)
}

#[tactic(auto, unfolding(c_grammar::specs::Statements::other_effect))]
fn other_effect(
    reader: &mut Reader<'_>,
    parens: u32,
    others: Others,
    last: bool,
) -> Result<Effect, Departure>
    ensures { Reads (other_effect parens others last) effect_of result reader.old reader.new }
{
    if reader.at_step() {
        let effect = prefix_step(reader, parens, last)?;
        Ok(effect)
    } else {
        let effect = target_effect(reader, parens, others, last)?;
        Ok(effect)
    }
}

/// An assignment, a step or a call, where so many parentheses may be open, these others might stand
/// at its first token, and `)` ends it where `last` is true and `;` where not.
#[tactic(auto, unfolding(c_grammar::specs::Statements::effect, c_grammar::specs::Expressions::sees_call))]
pub fn read_effect(
    reader: &mut Reader<'_>,
    parens: u32,
    others: Others,
    last: bool,
) -> Result<Effect, Departure>
    ensures { Reads (effect parens others last) effect_of result reader.old reader.new }
{
    if at_call(reader) {
        let effect = call_effect(reader, parens.saturating_sub(1), last)?;
        Ok(effect)
    } else {
        let effect = other_effect(reader, parens, others, last)?;
        Ok(effect)
    }
}
