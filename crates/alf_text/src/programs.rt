//! Whole programs.

ghost use Rattle.alf_program.specs.Tree.{program_of};
ghost use Rattle.alf_reader.specs.Reading.{Reads};
ghost use Rattle.alf_text.specs.Grammar.{closing_empty, empty, addr_unit, macro_defs, little_endian, heading, exports};
ghost use Rattle.alf_text.specs.Grammar.{imports, program};

use crate::functions::functions;
use alf_program::Program;
use alf_reader::{Departure, Reader, misfit};
use alf_tokens::Kind;
use flow_base::Name;

// The brace after a list that has no items. This word stands for an item.
#[tactic(auto, unfolding(crate::specs::Grammar::closing_empty))]
fn closing_empty<'a>(reader: &mut Reader<'a>, list: &'static [u8]) -> Result<(), Departure<'a>>
    ensures { Reads (closing_empty list.now) (λ x. x) result reader.old reader.new }
{
    let token = reader.token()?;
    if token.kind == Kind::Open {
        Err(Departure::OutOfProfile(token.left, list))
    } else if token.kind == Kind::Close {
        Ok(())
    } else {
        Err(misfit(token))
    }
}

#[tactic(auto, unfolding(crate::specs::Grammar::empty))]
fn empty<'a>(reader: &mut Reader<'a>, word: &[u8], list: &'static [u8]) -> Result<(), Departure<'a>>
    ensures { Reads (empty word.now list.now) (λ x. x) result reader.old reader.new }
{
    reader.begin(word)?;
    closing_empty(reader, list)?;
    Ok(())
}

#[tactic(auto, unfolding(crate::specs::Grammar::macro_defs))]
fn macro_defs<'a>(reader: &mut Reader<'a>) -> Result<(), Departure<'a>>
    ensures { Reads macro_defs (λ x. x) result reader.old reader.new }
{
    empty(reader, b"macro_defs", b"macro_defs")?;
    Ok(())
}

#[tactic(auto, unfolding(crate::specs::Grammar::addr_unit))]
fn addr_unit<'a>(reader: &mut Reader<'a>) -> Result<(), Departure<'a>>
    ensures { Reads addr_unit (λ x. x) result reader.old reader.new }
{
    reader.begin(b"least_addr_unit")?;
    reader.fixed(8)?;
    reader.closing()?;
    Ok(())
}

#[tactic(auto, unfolding(crate::specs::Grammar::little_endian))]
fn little_endian<'a>(reader: &mut Reader<'a>) -> Result<(), Departure<'a>>
    ensures { Reads little_endian (λ x. x) result reader.old reader.new }
{
    reader.word(b"little_endian")?;
    Ok(())
}

#[tactic(auto, unfolding(crate::specs::Grammar::heading))]
fn heading<'a>(reader: &mut Reader<'a>) -> Result<(), Departure<'a>>
    ensures { Reads heading (λ x. x) result reader.old reader.new }
{
    macro_defs(reader)?;
    addr_unit(reader)?;
    little_endian(reader)?;
    Ok(())
}

// The frames and the labels that are exported.
#[tactic(auto, unfolding(crate::specs::Grammar::exports))]
fn exports<'a>(reader: &mut Reader<'a>) -> Result<(Vec<Name>, Vec<Name>), Departure<'a>>
    ensures { Reads exports (λ x. (x.0.items, x.1.items)) result reader.old reader.new }
{
    reader.begin(b"exports")?;
    let frames = reader.references(b"frefs", b"fref")?;
    let labels = reader.references(b"lrefs", b"lref")?;
    reader.closing()?;
    Ok((frames, labels))
}

#[tactic(auto, unfolding(crate::specs::Grammar::imports))]
fn imports<'a>(reader: &mut Reader<'a>) -> Result<(), Departure<'a>>
    ensures { Reads imports (λ x. x) result reader.old reader.new }
{
    reader.begin(b"imports")?;
    empty(reader, b"frefs", b"imports")?;
    empty(reader, b"lrefs", b"imports")?;
    reader.closing()?;
    Ok(())
}

/// A whole text.
#[tactic(auto, unfolding(crate::specs::Grammar::program))]
pub fn program<'a>(reader: &mut Reader<'a>) -> Result<Program, Departure<'a>>
    ensures { Reads program program_of result reader.old reader.new }
{
    reader.begin(b"alf")?;
    heading(reader)?;
    let (exports, labels) = exports(reader)?;
    imports(reader)?;
    let decls = reader.allocs(b"decls")?;
    let inits = reader.inits()?;
    let funcs = functions(reader)?;
    reader.closing()?;
    reader.end()?;
    Ok(Program {
        exports,
        labels,
        decls,
        inits,
        funcs,
    })
}
