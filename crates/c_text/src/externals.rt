//! Declarations and functions, and whole units.

ghost use Rattle.std.specs.Prelude.{◌≡◌, ◌&&◌, map, codes};
ghost use Rattle.c_unit.specs.Tree.{declarator_of, statement_of, external_of};
ghost use Rattle.c_grammar.specs.Tokens.{at_text};
ghost use Rattle.c_grammar.specs.Units.{may_be_defined, declaration_after, body, open_body, definition_after};
ghost use Rattle.c_grammar.specs.Units.{external_after, external, unit};
ghost use Rattle.c_reader.specs.Reading.{position, Reads};

use crate::declarators::{
    after_sole, further_declarators, may_be_defined, parameter_count, parameters_of,
    read_declarator, with_first,
};
use crate::sequences::Externals;
use c_grammar::{Others, Setting, Standing};
use c_reader::{Departure, Reader};
use c_statements::{block_items, semicolon};
use c_unit::{Declarator, External, Outcome, Stmt};
use grammar::many;

const MOST_NESTING: u32 = 32;

#[tactic(auto, unfolding(c_grammar::specs::Units::declaration_after))]
fn declaration_after(
    reader: &mut Reader<'_>,
    first: u32,
    outcome: Outcome,
    declarator: Declarator,
) -> Result<External, Departure>
    ensures { Reads (declaration_after first outcome (declarator_of declarator)) external_of result reader.old
        reader.new }
{
    let others = further_declarators(reader, outcome)?;
    semicolon(reader, after_sole(&declarator, others.as_slice()))?;
    Ok(External::Declare(first, outcome, with_first(declarator, others)?))
}

// What stands in the block of a function.
#[tactic(auto, unfolding(c_grammar::specs::Units::body))]
fn read_body(reader: &mut Reader<'_>) -> Result<Vec<Stmt>, Departure>
    ensures { Reads body (λ x. map statement_of x.items) result reader.old reader.new }
{
    let items = block_items(reader, MOST_NESTING - 1, Standing::Item)?;
    reader.close_brace()?;
    Ok(items)
}

// A brace, where one more function is defined, which has so many parameters.
#[tactic(auto, unfolding(c_grammar::specs::Units::open_body))]
fn open_body(reader: &mut Reader<'_>, count: u64) -> Result<(), Departure>
    ensures { Reads (open_body count) (λ x. x) result reader.old reader.new }
{
    reader.mark(b"{", Others::Nothing)?;
    reader.one_function()?;
    reader.some_frames(count)?;
    Ok(())
}

#[tactic(auto, unfolding(c_grammar::specs::Units::definition_after))]
fn definition_after(
    reader: &mut Reader<'_>,
    first: u32,
    outcome: Outcome,
    declarator: Declarator,
) -> Result<External, Departure>
    ensures { Reads (definition_after first outcome (declarator_of declarator)) external_of result reader.old
        reader.new }
{
    open_body(reader, parameter_count(&declarator.shape))?;
    let body = read_body(reader)?;
    let parameters = parameters_of(reader.alloc, declarator.shape);
    Ok(External::Define(first, outcome, declarator.name, parameters, body))
}

// Whether the block of this function comes next.
fn sees_body(reader: &Reader<'_>, declarator: &Declarator) -> bool
    ensures { result
        ≡ (may_be_defined (declarator_of declarator.now).shape && at_text (codes "{") (position reader.now)) }
{
    may_be_defined(&declarator.shape) && reader.at(b"{")
}

#[tactic(auto, unfolding(c_grammar::specs::Units::external_after, c_grammar::specs::Units::sees_body))]
fn external_after(
    reader: &mut Reader<'_>,
    first: u32,
    outcome: Outcome,
    declarator: Declarator,
) -> Result<External, Departure>
    ensures { Reads (external_after first outcome (declarator_of declarator)) external_of result reader.old reader.new }
{
    if sees_body(reader, &declarator) {
        let external = definition_after(reader, first, outcome, declarator)?;
        Ok(external)
    } else {
        let external = declaration_after(reader, first, outcome, declarator)?;
        Ok(external)
    }
}

/// A declaration or a function.
#[tactic(auto, unfolding(c_grammar::specs::Units::external))]
pub fn read_external(reader: &mut Reader<'_>) -> Result<External, Departure>
    ensures { Reads external external_of result reader.old reader.new }
{
    let first = reader.next_number()?;
    let outcome = reader.type_of(Setting::File)?;
    let declarator = read_declarator(reader, outcome)?;
    let external = external_after(reader, first, outcome, declarator)?;
    Ok(external)
}

/// A whole text.
#[tactic(auto, unfolding(c_grammar::specs::Units::unit))]
pub fn read_unit(reader: &mut Reader<'_>) -> Result<Vec<External>, Departure>
    ensures { Reads unit (λ x. map external_of x.items) result reader.old reader.new }
{
    let externals = many(reader.alloc, &Externals, reader)?;
    Ok(externals)
}
