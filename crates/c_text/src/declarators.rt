//! Names that are declared at file level, after the type.

ghost use Rattle.std.specs.Prelude.{◌≡◌, ◌∷◌, map, length};
ghost use Rattle.std.specs.Prelude.{IfOk};
ghost use Rattle.std.specs.Option.{is_some};
ghost use Rattle.grammar.specs.Rule.{many};
ghost use Rattle.c_unit.specs.Tree.{shape_of, declarator_of};
ghost use Rattle.c_grammar.specs.Types.{at_list_comma};
ghost use Rattle.c_grammar.specs.Units.{gives, prototype, declarator, further_declarator, all_named, may_be_defined};
ghost use Rattle.c_grammar.specs.Units.{lacks_names, after_sole, parameters_of};
ghost use Rattle.c_reader.specs.Reading.{seen, Reads};

use crate::objects::object;
use crate::parameters::read_parameters;
use crate::sequences::Declarators;
use c_expressions::open_paren;
use c_grammar::Others;
use c_reader::{Departure, Reader, Token};
use c_unit::{Declarator, Outcome, Parameter, Shape};
use grammar::many;
use std::alloc::{AllocError, Global};

// Whether a function gives a value.
fn gives(outcome: Outcome) -> bool
    ensures { result ≡ gives outcome }
{
    match outcome {
        Outcome::Nothing => false,
        Outcome::Integer(_) => true,
    }
}

// A function, after its name.
#[tactic(auto, unfolding(c_grammar::specs::Units::prototype))]
fn prototype<'a>(
    reader: &mut Reader<'a>,
    outcome: Outcome,
    token: &Token<'a>,
) -> Result<Declarator, Departure>
    ensures { Reads (prototype outcome (seen token.now)) declarator_of result reader.old reader.new }
{
    open_paren(reader)?;
    let parameters = read_parameters(reader)?;
    reader.declares(token.text, gives(outcome))?;
    Ok(Declarator {
        name: token.number,
        shape: Shape::Function(parameters),
    })
}

/// A name that is declared, after the type.
#[tactic(auto, unfolding(c_grammar::specs::Units::declarator, c_grammar::specs::Tokens::sees))]
pub fn read_declarator(reader: &mut Reader<'_>, outcome: Outcome) -> Result<Declarator, Departure>
    ensures { Reads (declarator outcome) declarator_of result reader.old reader.new }
{
    let token = reader.name(Others::Stars)?;
    if reader.at(b"(") {
        let declarator = prototype(reader, outcome, &token)?;
        Ok(declarator)
    } else {
        let declarator = object(reader, outcome, token.number)?;
        Ok(declarator)
    }
}

/// A comma and a name that is declared.
#[tactic(auto, unfolding(c_grammar::specs::Units::further_declarator))]
pub fn further_declarator(
    reader: &mut Reader<'_>,
    outcome: Outcome,
) -> Result<Declarator, Departure>
    ensures { Reads (further_declarator outcome) declarator_of result reader.old reader.new }
{
    reader.comma_mark()?;
    let declarator = read_declarator(reader, outcome)?;
    Ok(declarator)
}

/// Further names that are declared.
pub fn further_declarators(
    reader: &mut Reader<'_>,
    outcome: Outcome,
) -> Result<Vec<Declarator>, Departure>
    ensures { Reads (many at_list_comma (further_declarator outcome)) (λ x. map declarator_of x.items) result reader.old
        reader.new }
{
    let declarators = many(reader.alloc, &Declarators { outcome }, reader)?;
    Ok(declarators)
}

/// The first of some declarators before the others.
pub fn with_first(first: Declarator, others: Vec<Declarator>) -> Result<Vec<Declarator>, AllocError>
    ensures { IfOk result (λ all. map declarator_of all.items ≡ declarator_of first ∷ map declarator_of others.items) }
{
    let mut all = others;
    all.insert(0, first)?;
    Ok(all)
}

// Whether each parameter has a name.
fn all_named(parameters: &[Parameter]) -> bool
    ensures { result ≡ all_named parameters.now }
{
    parameters.iter().all(|parameter| parameter.name.is_some())
}

/// Whether it is a function whose parameters have names.
pub fn may_be_defined(shape: &Shape) -> bool
    ensures { result ≡ may_be_defined (shape_of shape.now) }
{
    match shape {
        Shape::Integer(_) => false,
        Shape::Array(_, _) => false,
        Shape::Function(parameters) => all_named(parameters.as_slice()),
    }
}

// Whether it is a function some of whose parameters have none.
fn lacks_names(shape: &Shape) -> bool
    ensures { result ≡ lacks_names (shape_of shape.now) }
{
    match shape {
        Shape::Integer(_) => false,
        Shape::Array(_, _) => false,
        Shape::Function(parameters) => {
            if all_named(parameters.as_slice()) {
                false
            } else {
                true
            }
        }
    }
}

/// What might stand after a sole declarator.
pub fn after_sole(declarator: &Declarator, others: &[Declarator]) -> Others
    ensures { result ≡ after_sole (declarator_of declarator.now) (map declarator_of others.now) }
{
    match others {
        [] => {
            if lacks_names(&declarator.shape) {
                Others::Braces
            } else {
                Others::Nothing
            }
        }
        [_, ..] => Others::Nothing,
    }
}

/// How many parameters a function has.
pub fn parameter_count(shape: &Shape) -> u64
    ensures { result ≡ length (parameters_of (shape_of shape.now)) }
{
    match shape {
        Shape::Integer(_) => 0,
        Shape::Array(_, _) => 0,
        Shape::Function(parameters) => parameters.len() as u64,
    }
}

/// The parameters of a function.
pub fn parameters_of(alloc: Global, shape: Shape) -> Vec<Parameter>
    ensures { result.items ≡ parameters_of (shape_of shape) }
{
    match shape {
        Shape::Integer(_) => Vec::new(alloc),
        Shape::Array(_, _) => Vec::new(alloc),
        Shape::Function(parameters) => parameters,
    }
}
