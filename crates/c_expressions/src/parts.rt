//! What stands in lists. Their loop is `grammar::many`.

ghost use Rattle.std.specs.Prelude.{◌≡◌, None};
ghost use Rattle.c_unit.specs.Tree.{Expression, expression_of};
ghost use Rattle.c_grammar.specs.Expressions.{at_comma, further_argument};
ghost use Rattle.c_reader.specs.Reading.{c_text, fault_of};

use crate::calls::further_argument;
use c_reader::{Departure, Reader};
use c_unit::Expr;
use grammar::Part;

/// Arguments after the first, in which so many parentheses may be open.
#[derive(Clone, Copy)]
pub struct Arguments {
    pub parens: u32,
}

impl<'a> Part<Reader<'a>> for Arguments {
    type Value = Expr;

    type Error = Departure;

    ghost reading = { c_text };

    ghost Seen = { Expression };

    ghost view = { expression_of };

    ghost goes_on = { λ _. at_comma };

    ghost rule = { λ part. further_argument part.parens };

    fn begins(&self, reader: &Reader<'a>) -> bool {
        reader.at(b",")
    }

    fn read(&self, reader: &mut Reader<'a>) -> Result<Expr, Departure> {
        further_argument(reader, self.parens)
    }

    fn memory() -> Departure
        ensures { fault_of result ≡ None }
    {
        Departure::Memory
    }
}
