//! What stands in lists. Their loop is `grammar::many`.

ghost use Rattle.std.specs.Prelude.{◌≡◌, None};
ghost use Rattle.c_unit.specs.Tree.{LocalTree, local_of};
ghost use Rattle.c_grammar.specs.Types.{at_list_comma};
ghost use Rattle.c_grammar.specs.Statements.{further_local};
ghost use Rattle.c_reader.specs.Reading.{c_text, fault_of};

use crate::locals::further_local;
use c_reader::{Departure, Reader};
use c_unit::Local;
use grammar::Part;

/// Locals of a declaration after the first.
#[derive(Clone, Copy)]
pub struct Locals;

impl<'a> Part<Reader<'a>> for Locals {
    type Value = Local;

    type Error = Departure;

    ghost reading = { c_text };

    ghost Seen = { LocalTree };

    ghost view = { local_of };

    ghost goes_on = { λ _. at_list_comma };

    ghost rule = { λ _. further_local };

    fn begins(&self, reader: &Reader<'a>) -> bool {
        reader.at(b",")
    }

    fn read(&self, reader: &mut Reader<'a>) -> Result<Local, Departure> {
        further_local(reader)
    }

    fn memory() -> Departure
        ensures { fault_of result ≡ None }
    {
        Departure::Memory
    }
}
