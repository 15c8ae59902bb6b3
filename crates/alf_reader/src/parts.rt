//! What stands in lists. Their loop is `grammar::many`.

ghost use Rattle.std.specs.Prelude.{◌≡◌, ℕ, List, None};
ghost use Rattle.alf_program.specs.Tree.{NamedExpression, Allocation, InitialValue, expression_of, allocation_of};
ghost use Rattle.alf_program.specs.Tree.{initial_of};
ghost use Rattle.alf_reader.specs.Grammar.{opens, alloc, init, whole_expr, reference};
ghost use Rattle.alf_reader.specs.Reading.{alf, fault_of};

use crate::fault::Departure;
use crate::reader::Reader;
use alf_program::{Alloc, Expr, Init};
use flow_base::Name;
use grammar::Part;

/// Frames.
#[derive(Clone, Copy)]
pub struct Allocs;

impl<'a> Part<Reader<'a>> for Allocs {
    type Value = Alloc;

    type Error = Departure<'a>;

    ghost reading = { alf };

    ghost Seen = { Allocation };

    ghost view = { allocation_of };

    ghost goes_on = { λ _. opens };

    ghost rule = { λ _. alloc };

    fn begins(&self, reader: &Reader<'a>) -> bool {
        reader.at_open()
    }

    fn read(&self, reader: &mut Reader<'a>) -> Result<Alloc, Departure<'a>> {
        reader.alloc()
    }

    fn memory() -> Departure<'a> {
        Departure::Memory
    }
}

/// Initial values.
#[derive(Clone, Copy)]
pub struct Inits;

impl<'a> Part<Reader<'a>> for Inits {
    type Value = Init;

    type Error = Departure<'a>;

    ghost reading = { alf };

    ghost Seen = { InitialValue };

    ghost view = { initial_of };

    ghost goes_on = { λ _. opens };

    ghost rule = { λ _. init };

    fn begins(&self, reader: &Reader<'a>) -> bool {
        reader.at_open()
    }

    fn read(&self, reader: &mut Reader<'a>) -> Result<Init, Departure<'a>> {
        reader.init()
    }

    fn memory() -> Departure<'a> {
        Departure::Memory
    }
}

/// Expressions.
#[derive(Clone, Copy)]
pub struct Exprs;

impl<'a> Part<Reader<'a>> for Exprs {
    type Value = Expr;

    type Error = Departure<'a>;

    ghost reading = { alf };

    ghost Seen = { NamedExpression };

    ghost view = { expression_of };

    ghost goes_on = { λ _. opens };

    ghost rule = { λ _. whole_expr };

    fn begins(&self, reader: &Reader<'a>) -> bool {
        reader.at_open()
    }

    fn read(&self, reader: &mut Reader<'a>) -> Result<Expr, Departure<'a>> {
        reader.whole_expr()
    }

    fn memory() -> Departure<'a> {
        Departure::Memory
    }
}

/// References of this word.
#[derive(Clone, Copy)]
pub struct References<'w>(pub &'w [u8]);

impl<'a, 'w> Part<Reader<'a>> for References<'w> {
    type Value = Name;

    type Error = Departure<'a>;

    ghost reading = { alf };

    ghost Seen = { List ℕ };

    ghost view = { λ x. x };

    ghost goes_on = { λ _. opens };

    ghost rule = { λ part. reference part.0.now };

    fn begins(&self, reader: &Reader<'a>) -> bool {
        reader.at_open()
    }

    fn read(&self, reader: &mut Reader<'a>) -> Result<Name, Departure<'a>> {
        reader.reference(self.0)
    }

    fn memory() -> Departure<'a>
        ensures { fault_of result ≡ None }
    {
        Departure::Memory
    }
}
