//! What stands in lists. Their loop is `grammar::many`.

ghost use Rattle.std.specs.Prelude.{◌≡◌, None};
ghost use Rattle.c_unit.specs.declared.external.Parameter.{Parameter};
ghost use Rattle.c_unit.specs.Tree.{DeclaratorTree, ExternalTree, declarator_of, external_of};
ghost use Rattle.c_grammar.specs.Types.{at_list_comma, further_parameter};
ghost use Rattle.c_grammar.specs.Units.{further_declarator, is_left, external};
ghost use Rattle.c_reader.specs.Reading.{c_text, fault_of};

use crate::declarators::further_declarator;
use crate::externals::read_external;
use crate::parameters::further_parameter;
use c_reader::{Departure, Reader};
use c_unit::{Declarator, External, Outcome, Parameter};
use grammar::Part;

/// Parameters of a function after the first.
#[derive(Clone, Copy)]
pub struct Parameters;

impl<'a> Part<Reader<'a>> for Parameters {
    type Value = Parameter;

    type Error = Departure;

    ghost reading = { c_text };

    ghost Seen = { Parameter };

    ghost view = { λ x. x };

    ghost goes_on = { λ _. at_list_comma };

    ghost rule = { λ _. further_parameter };

    fn begins(&self, reader: &Reader<'a>) -> bool {
        reader.at(b",")
    }

    fn read(&self, reader: &mut Reader<'a>) -> Result<Parameter, Departure> {
        further_parameter(reader)
    }

    fn memory() -> Departure
        ensures { fault_of result ≡ None }
    {
        Departure::Memory
    }
}

/// Names after the first that are declared with a type.
#[derive(Clone, Copy)]
pub struct Declarators {
    pub outcome: Outcome,
}

impl<'a> Part<Reader<'a>> for Declarators {
    type Value = Declarator;

    type Error = Departure;

    ghost reading = { c_text };

    ghost Seen = { DeclaratorTree };

    ghost view = { declarator_of };

    ghost goes_on = { λ _. at_list_comma };

    ghost rule = { λ part. further_declarator part.outcome };

    fn begins(&self, reader: &Reader<'a>) -> bool {
        reader.at(b",")
    }

    fn read(&self, reader: &mut Reader<'a>) -> Result<Declarator, Departure> {
        further_declarator(reader, self.outcome)
    }

    fn memory() -> Departure
        ensures { fault_of result ≡ None }
    {
        Departure::Memory
    }
}

/// What stands at file level.
#[derive(Clone, Copy)]
pub struct Externals;

impl<'a> Part<Reader<'a>> for Externals {
    type Value = External;

    type Error = Departure;

    ghost reading = { c_text };

    ghost Seen = { ExternalTree };

    ghost view = { external_of };

    ghost goes_on = { λ _. is_left };

    ghost rule = { λ _. external };

    fn begins(&self, reader: &Reader<'a>) -> bool {
        match reader.rest.first() {
            Some(_) => true,
            None => false,
        }
    }

    fn read(&self, reader: &mut Reader<'a>) -> Result<External, Departure> {
        read_external(reader)
    }

    fn memory() -> Departure
        ensures { fault_of result ≡ None }
    {
        Departure::Memory
    }
}
