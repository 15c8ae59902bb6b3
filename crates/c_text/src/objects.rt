//! Objects at file level.

ghost use Rattle.std.specs.Prelude.{◌≡◌};
ghost use Rattle.grammar.specs.Rule.{maybe};
ghost use Rattle.c_unit.specs.Tree.{shape_of, declarator_of};
ghost use Rattle.c_grammar.specs.Types.{at_assign};
ghost use Rattle.c_grammar.specs.Units.{global_initial, after_global, global_integer, global_array, object};
ghost use Rattle.c_reader.specs.Reading.{Reads};

use c_grammar::Others;
use c_reader::{Departure, Reader, after_constant};
use c_unit::{Constant, Declarator, Outcome, Shape};

#[tactic(auto, unfolding(c_grammar::specs::Units::global_initial))]
fn global_initial(reader: &mut Reader<'_>) -> Result<Constant, Departure>
    ensures { Reads global_initial (λ x. x) result reader.old reader.new }
{
    reader.assign_mark()?;
    let constant = reader.signed_constant(Others::ExpressionsAndBraces)?;
    Ok(constant)
}

fn maybe_initial(reader: &mut Reader<'_>) -> Result<Option<Constant>, Departure>
    ensures { Reads (maybe at_assign global_initial) (λ x. x) result reader.old reader.new }
{
    if !reader.at(b"=") {
        return Ok(None);
    }
    let constant = global_initial(reader)?;
    Ok(Some(constant))
}

fn after_global(constant: Option<Constant>) -> Others
    ensures { result ≡ after_global constant }
{
    match constant {
        None => Others::Nothing,
        Some(_) => after_constant(),
    }
}

#[tactic(auto, unfolding(c_grammar::specs::Units::global_integer))]
fn global_integer(reader: &mut Reader<'_>) -> Result<Shape, Departure>
    ensures { Reads global_integer shape_of result reader.old reader.new }
{
    let constant = maybe_initial(reader)?;
    reader.before_either(b",", b";", after_global(constant))?;
    Ok(Shape::Integer(constant))
}

#[tactic(auto, unfolding(c_grammar::specs::Units::global_array))]
fn global_array(reader: &mut Reader<'_>) -> Result<Shape, Departure>
    ensures { Reads global_array shape_of result reader.old reader.new }
{
    let (size, elements) = reader.array()?;
    Ok(Shape::Array(size, elements))
}

/// An object, after its name.
#[tactic(auto, unfolding(c_grammar::specs::Units::object, c_grammar::specs::Tokens::sees))]
pub fn object(reader: &mut Reader<'_>, outcome: Outcome, name: u32) -> Result<Declarator, Departure>
    ensures { Reads (object outcome name) declarator_of result reader.old reader.new }
{
    reader.integer_told(Others::Object, outcome)?;
    reader.some_frames(1)?;
    if reader.at(b"[") {
        let shape = global_array(reader)?;
        Ok(Declarator { name, shape })
    } else {
        let shape = global_integer(reader)?;
        Ok(Declarator { name, shape })
    }
}
