//! Local declarations.

ghost use Rattle.std.specs.Prelude.{◌≡◌, ◌∷◌, map, IfOk};
ghost use Rattle.std.specs.Option.{option_map};
ghost use Rattle.grammar.specs.Rule.{maybe, many};
ghost use Rattle.c_unit.specs.Tree.{value_of, local_of, statement_of};
ghost use Rattle.c_grammar.specs.Types.{at_assign, at_list_comma};
ghost use Rattle.c_grammar.specs.Statements.{initial, after_local, local_end, pointer_local, array_local};
ghost use Rattle.c_grammar.specs.Statements.{integer_local, plain_local, local, further_local, semicolon, declaration};
ghost use Rattle.c_reader.specs.Reading.{Reads};

use crate::parts::Locals;
use c_expressions::{assigned, rest_of_value};
use c_grammar::{Others, Setting};
use c_reader::{Departure, Reader};
use c_unit::{Local, LocalShape, Stmt, Value};
use grammar::many;
use std::alloc::AllocError;

/// As many parentheses as may be open in an expression.
pub const MOST_PARENS: u32 = 64;

#[tactic(auto, unfolding(c_grammar::specs::Statements::initial))]
fn initial(reader: &mut Reader<'_>) -> Result<Value, Departure>
    ensures { Reads initial value_of result reader.old reader.new }
{
    reader.assign_mark()?;
    let value = assigned(reader, MOST_PARENS, Others::StepsAndBraces)?;
    Ok(value)
}

fn maybe_initial(reader: &mut Reader<'_>) -> Result<Option<Value>, Departure>
    ensures { Reads (maybe at_assign initial) (option_map value_of) result reader.old reader.new }
{
    if !reader.at(b"=") {
        return Ok(None);
    }
    let value = initial(reader)?;
    Ok(Some(value))
}

// What might stand after a local without brackets.
fn after_local(others: Others, value: &Option<Value>) -> Others
    ensures { result ≡ after_local others (option_map value_of value.now) }
{
    match value {
        None => others,
        Some(value) => rest_of_value(false, value),
    }
}

#[tactic(auto, unfolding(c_grammar::specs::Statements::local_end))]
fn local_end(reader: &mut Reader<'_>, others: Others) -> Result<(), Departure>
    ensures { Reads (local_end others) (λ x. x) result reader.old reader.new }
{
    reader.before_either(b",", b";", others)
}

#[tactic(auto, unfolding(c_grammar::specs::Statements::pointer_local))]
fn pointer_local(reader: &mut Reader<'_>) -> Result<Local, Departure>
    ensures { Reads pointer_local local_of result reader.old reader.new }
{
    reader.star()?;
    let token = reader.name(Others::Stars)?;
    reader.some_frames(1)?;
    let value = maybe_initial(reader)?;
    local_end(reader, after_local(Others::BracketsAndParens, &value))?;
    Ok(Local {
        name: token.number,
        shape: LocalShape::Pointer(value),
    })
}

#[tactic(auto, unfolding(c_grammar::specs::Statements::array_local))]
fn array_local(reader: &mut Reader<'_>, name: u32) -> Result<Local, Departure>
    ensures { Reads (array_local name) local_of result reader.old reader.new }
{
    let (size, elements) = reader.array()?;
    Ok(Local {
        name,
        shape: LocalShape::Array(size, elements),
    })
}

#[tactic(auto, unfolding(c_grammar::specs::Statements::integer_local))]
fn integer_local(reader: &mut Reader<'_>, name: u32) -> Result<Local, Departure>
    ensures { Reads (integer_local name) local_of result reader.old reader.new }
{
    let value = maybe_initial(reader)?;
    local_end(reader, after_local(Others::Parens, &value))?;
    Ok(Local {
        name,
        shape: LocalShape::Integer(value),
    })
}

#[tactic(auto, unfolding(c_grammar::specs::Statements::plain_local, c_grammar::specs::Tokens::sees))]
fn plain_local(reader: &mut Reader<'_>) -> Result<Local, Departure>
    ensures { Reads plain_local local_of result reader.old reader.new }
{
    let token = reader.name(Others::Nothing)?;
    reader.some_frames(1)?;
    if reader.at(b"[") {
        let local = array_local(reader, token.number)?;
        Ok(local)
    } else {
        let local = integer_local(reader, token.number)?;
        Ok(local)
    }
}

// A local, after its type.
#[tactic(auto, unfolding(c_grammar::specs::Statements::local, c_grammar::specs::Tokens::sees))]
fn read_local(reader: &mut Reader<'_>) -> Result<Local, Departure>
    ensures { Reads local local_of result reader.old reader.new }
{
    if reader.at(b"*") {
        let local = pointer_local(reader)?;
        Ok(local)
    } else {
        let local = plain_local(reader)?;
        Ok(local)
    }
}

/// A comma and a local.
#[tactic(auto, unfolding(c_grammar::specs::Statements::further_local))]
pub fn further_local(reader: &mut Reader<'_>) -> Result<Local, Departure>
    ensures { Reads further_local local_of result reader.old reader.new }
{
    reader.comma_mark()?;
    let local = read_local(reader)?;
    Ok(local)
}

fn further_locals(reader: &mut Reader<'_>) -> Result<Vec<Local>, Departure>
    ensures { Reads (many at_list_comma further_local) (λ x. map local_of x.items) result reader.old reader.new }
{
    let locals = many(reader.alloc, &Locals, reader)?;
    Ok(locals)
}

fn with_first(first: Local, others: Vec<Local>) -> Result<Vec<Local>, AllocError>
    ensures { IfOk result (λ all. map local_of all.items ≡ local_of first ∷ map local_of others.items) }
{
    let mut all = others;
    all.insert(0, first)?;
    Ok(all)
}

/// A semicolon, where these others might stand.
#[tactic(auto, unfolding(c_grammar::specs::Statements::semicolon))]
pub fn semicolon(reader: &mut Reader<'_>, others: Others) -> Result<(), Departure>
    ensures { Reads (semicolon others) (λ x. x) result reader.old reader.new }
{
    reader.mark(b";", others)?;
    Ok(())
}

/// A declaration in a block.
#[tactic(auto, unfolding(c_grammar::specs::Statements::declaration))]
pub fn declaration(reader: &mut Reader<'_>) -> Result<Stmt, Departure>
    ensures { Reads declaration statement_of result reader.old reader.new }
{
    let first = reader.next_number()?;
    let kind = reader.integer_type(Setting::Block)?;
    let local = read_local(reader)?;
    let others = further_locals(reader)?;
    semicolon(reader, Others::Nothing)?;
    Ok(Stmt::Declare(first, kind, with_first(local, others)?))
}
