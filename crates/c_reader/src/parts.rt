//! What stands in lists and chains. Their loops are `grammar::many` and `grammar::grow`.

ghost use Rattle.std.specs.Prelude.{◌≡◌, None};
ghost use Rattle.c_unit.specs.declared.types.Constant.{Constant};
ghost use Rattle.c_grammar.specs.declared.specifiers.Specifiers.{Specifiers};
ghost use Rattle.c_grammar.specs.Types.{at_specifier, specifier, at_const, const_word, at_further, further_element};
ghost use Rattle.c_reader.specs.Reading.{c_text, fault_of};

use crate::fault::Departure;
use crate::reader::Reader;
use c_grammar::{Setting, Specifiers};
use c_unit::Constant;
use grammar::{Link, Part};

/// The words of a type.
#[derive(Clone, Copy)]
pub struct Words {
    pub setting: Setting,
}

impl<'a> Link<Reader<'a>> for Words {
    type Value = Specifiers;

    type Error = Departure;

    ghost reading = { c_text };

    ghost Seen = { Specifiers };

    ghost view = { λ x. x };

    ghost goes_on = { λ _. at_specifier };

    ghost rule = { λ link. specifier link.setting };

    fn begins(&self, _value: &Specifiers, reader: &Reader<'a>) -> bool {
        reader.at_specifier()
    }

    fn take(&self, value: Specifiers, reader: &mut Reader<'a>) -> Result<Specifiers, Departure> {
        reader.specifier(self.setting, value)
    }
}

/// `const`, as often as it stands.
#[derive(Clone, Copy)]
pub struct Consts;

impl<'a> Part<Reader<'a>> for Consts {
    type Value = ();

    type Error = Departure;

    ghost reading = { c_text };

    ghost Seen = { Unit {0} };

    ghost view = { λ x. x };

    ghost goes_on = { λ _. at_const };

    ghost rule = { λ _. const_word };

    fn begins(&self, reader: &Reader<'a>) -> bool {
        reader.at(b"const")
    }

    fn read(&self, reader: &mut Reader<'a>) -> Result<(), Departure> {
        reader.const_word()
    }

    fn memory() -> Departure
        ensures { fault_of result ≡ None }
    {
        Departure::Memory
    }
}

/// Elements of an array after the first.
#[derive(Clone, Copy)]
pub struct Elements;

impl<'a> Part<Reader<'a>> for Elements {
    type Value = Constant;

    type Error = Departure;

    ghost reading = { c_text };

    ghost Seen = { Constant };

    ghost view = { λ x. x };

    ghost goes_on = { λ _. at_further };

    ghost rule = { λ _. further_element };

    fn begins(&self, reader: &Reader<'a>) -> bool {
        reader.at_further()
    }

    fn read(&self, reader: &mut Reader<'a>) -> Result<Constant, Departure> {
        reader.further_element()
    }

    fn memory() -> Departure
        ensures { fault_of result ≡ None }
    {
        Departure::Memory
    }
}
