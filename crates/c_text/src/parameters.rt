//! The parameters of functions.

ghost use Rattle.std.specs.Prelude.{◌≡◌, ◌∷◌, IfOk};
ghost use Rattle.std.specs.Option.{option_map};
ghost use Rattle.grammar.specs.Rule.{maybe, many};
ghost use Rattle.c_grammar.specs.declared.others.Others.TheVariants as others;
ghost use Rattle.c_grammar.specs.Tokens.{name};
ghost use Rattle.c_grammar.specs.Types.{at_name, at_list_comma, parameter_end, number_of_name, after_pointer};
ghost use Rattle.c_grammar.specs.Types.{pointer_parameter, empty_brackets, bracketed_type, after_plain};
ghost use Rattle.c_grammar.specs.Types.{plain_parameter, parameter_tail, further_parameter, right_paren};
ghost use Rattle.c_grammar.specs.Types.{parameters_from, void_parameters, parameters_after, some_parameters};
ghost use Rattle.c_grammar.specs.Types.{no_parameters, parameters};
ghost use Rattle.c_reader.specs.Reading.{seen, Reads};

use crate::sequences::Parameters;
use c_grammar::{Others, Setting};
use c_reader::{Departure, Reader, Token};
use c_unit::{Integer, Outcome, Parameter, Scalar};
use grammar::many;
use std::alloc::AllocError;

// After a parameter a comma or a parenthesis stands.
#[tactic(auto, unfolding(c_grammar::specs::Types::parameter_end))]
fn parameter_end(reader: &mut Reader<'_>, others: Others) -> Result<(), Departure>
    ensures { Reads (parameter_end others) (λ x. x) result reader.old reader.new }
{
    reader.before_either(b",", b")", others)
}

fn maybe_name<'a>(reader: &mut Reader<'a>) -> Result<Option<Token<'a>>, Departure>
    ensures { Reads (maybe at_name (name others.Nothing)) (option_map seen) result reader.old reader.new }
{
    if !reader.at_name() {
        return Ok(None);
    }
    let token = reader.name(Others::Nothing)?;
    Ok(Some(token))
}

fn number_of_name(token: &Option<Token<'_>>) -> Option<u32>
    ensures { result ≡ number_of_name (option_map seen token.now) }
{
    match token {
        None => None,
        Some(token) => Some(token.number),
    }
}

fn after_pointer(token: &Option<Token<'_>>) -> Others
    ensures { result ≡ after_pointer (option_map seen token.now) }
{
    match token {
        None => Others::StarsAndBrackets,
        Some(_) => Others::BracketsAndParens,
    }
}

// What might stand after a parameter that is no pointer by a star.
fn after_plain(bracketed: bool, token: &Option<Token<'_>>) -> Others
    ensures { result ≡ after_plain bracketed (option_map seen token.now) }
{
    if bracketed {
        return Others::Brackets;
    }
    match token {
        None => Others::Nothing,
        Some(_) => Others::Parens,
    }
}

#[tactic(auto, unfolding(c_grammar::specs::Types::pointer_parameter))]
fn pointer_parameter(
    reader: &mut Reader<'_>,
    first: u32,
    integer: Integer,
) -> Result<Parameter, Departure>
    ensures { Reads (pointer_parameter first integer) (λ x. x) result reader.old reader.new }
{
    reader.star()?;
    let token = maybe_name(reader)?;
    parameter_end(reader, after_pointer(&token))?;
    Ok(Parameter {
        first,
        kind: Scalar::Pointer(integer),
        name: number_of_name(&token),
    })
}

#[tactic(auto, unfolding(c_grammar::specs::Types::empty_brackets))]
fn empty_brackets(reader: &mut Reader<'_>, integer: Integer) -> Result<Scalar, Departure>
    ensures { Reads (empty_brackets integer) (λ x. x) result reader.old reader.new }
{
    reader.left_bracket()?;
    reader.right_bracket(Others::Expressions)?;
    Ok(Scalar::Pointer(integer))
}

// Empty brackets make a pointer.
#[tactic(auto, unfolding(c_grammar::specs::Types::bracketed_type))]
fn bracketed_type(
    reader: &mut Reader<'_>,
    bracketed: bool,
    integer: Integer,
) -> Result<Scalar, Departure>
    ensures { Reads (bracketed_type bracketed integer) (λ x. x) result reader.old reader.new }
{
    if bracketed {
        empty_brackets(reader, integer)
    } else {
        Ok(Scalar::Integer(integer))
    }
}

#[tactic(auto, unfolding(c_grammar::specs::Types::plain_parameter, c_grammar::specs::Tokens::sees))]
fn plain_parameter(
    reader: &mut Reader<'_>,
    first: u32,
    integer: Integer,
) -> Result<Parameter, Departure>
    ensures { Reads (plain_parameter first integer) (λ x. x) result reader.old reader.new }
{
    let token = maybe_name(reader)?;
    let bracketed = reader.at(b"[");
    let kind = bracketed_type(reader, bracketed, integer)?;
    parameter_end(reader, after_plain(bracketed, &token))?;
    Ok(Parameter {
        first,
        kind,
        name: number_of_name(&token),
    })
}

// What stands after the type of a parameter.
#[tactic(auto, unfolding(c_grammar::specs::Types::parameter_tail, c_grammar::specs::Tokens::sees))]
fn parameter_tail(
    reader: &mut Reader<'_>,
    first: u32,
    integer: Integer,
) -> Result<Parameter, Departure>
    ensures { Reads (parameter_tail first integer) (λ x. x) result reader.old reader.new }
{
    if reader.at(b"*") {
        let parameter = pointer_parameter(reader, first, integer)?;
        Ok(parameter)
    } else {
        let parameter = plain_parameter(reader, first, integer)?;
        Ok(parameter)
    }
}

/// A comma and a parameter.
#[tactic(auto, unfolding(c_grammar::specs::Types::further_parameter))]
pub fn further_parameter(reader: &mut Reader<'_>) -> Result<Parameter, Departure>
    ensures { Reads further_parameter (λ x. x) result reader.old reader.new }
{
    reader.comma_mark()?;
    let first = reader.next_number()?;
    let integer = reader.integer_type(Setting::Parameter)?;
    let parameter = parameter_tail(reader, first, integer)?;
    Ok(parameter)
}

fn further_parameters(reader: &mut Reader<'_>) -> Result<Vec<Parameter>, Departure>
    ensures { Reads (many at_list_comma further_parameter) (λ x. x.items) result reader.old reader.new }
{
    let parameters = many(reader.alloc, &Parameters, reader)?;
    Ok(parameters)
}

fn with_first(first: Parameter, others: Vec<Parameter>) -> Result<Vec<Parameter>, AllocError>
    ensures { IfOk result (λ all. all.items ≡ first ∷ others.items) }
{
    let mut all = others;
    all.insert(0, first)?;
    Ok(all)
}

#[tactic(auto, unfolding(c_grammar::specs::Types::right_paren))]
fn right_paren(reader: &mut Reader<'_>, others: Others) -> Result<(), Departure>
    ensures { Reads (right_paren others) (λ x. x) result reader.old reader.new }
{
    reader.mark(b")", others)?;
    Ok(())
}

// The first parameter, after its type, and the others.
#[tactic(auto, unfolding(c_grammar::specs::Types::parameters_from))]
fn parameters_from(
    reader: &mut Reader<'_>,
    first: u32,
    integer: Integer,
) -> Result<Vec<Parameter>, Departure>
    ensures { Reads (parameters_from first integer) (λ x. x.items) result reader.old reader.new }
{
    let parameter = parameter_tail(reader, first, integer)?;
    let others = further_parameters(reader)?;
    right_paren(reader, Others::Nothing)?;
    Ok(with_first(parameter, others)?)
}

// `void` alone says that there is none.
#[tactic(auto, unfolding(c_grammar::specs::Types::void_parameters))]
fn void_parameters(reader: &mut Reader<'_>) -> Result<Vec<Parameter>, Departure>
    ensures { Reads void_parameters (λ x. x.items) result reader.old reader.new }
{
    right_paren(reader, Others::Parameter)?;
    Ok(Vec::new(reader.alloc))
}

fn parameters_after(
    reader: &mut Reader<'_>,
    first: u32,
    outcome: Outcome,
) -> Result<Vec<Parameter>, Departure>
    ensures { Reads (parameters_after first outcome) (λ x. x.items) result reader.old reader.new }
{
    match outcome {
        Outcome::Nothing => void_parameters(reader),
        Outcome::Integer(integer) => parameters_from(reader, first, integer),
    }
}

#[tactic(auto, unfolding(c_grammar::specs::Types::some_parameters))]
fn some_parameters(reader: &mut Reader<'_>) -> Result<Vec<Parameter>, Departure>
    ensures { Reads some_parameters (λ x. x.items) result reader.old reader.new }
{
    let first = reader.next_number()?;
    let outcome = reader.type_of(Setting::FirstParameter)?;
    let parameters = parameters_after(reader, first, outcome)?;
    Ok(parameters)
}

#[tactic(auto, unfolding(c_grammar::specs::Types::no_parameters))]
fn no_parameters(reader: &mut Reader<'_>) -> Result<Vec<Parameter>, Departure>
    ensures { Reads no_parameters (λ x. x.items) result reader.old reader.new }
{
    right_paren(reader, Others::Nothing)?;
    Ok(Vec::new(reader.alloc))
}

/// The parameters of a function, after its parenthesis.
#[tactic(auto, unfolding(c_grammar::specs::Types::parameters, c_grammar::specs::Tokens::sees))]
pub fn read_parameters(reader: &mut Reader<'_>) -> Result<Vec<Parameter>, Departure>
    ensures { Reads parameters (λ x. x.items) result reader.old reader.new }
{
    if reader.at(b")") {
        let parameters = no_parameters(reader)?;
        Ok(parameters)
    } else {
        let parameters = some_parameters(reader)?;
        Ok(parameters)
    }
}
