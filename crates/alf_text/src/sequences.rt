//! What stands in lists. Their loop is `grammar::many`.

ghost use Rattle.std.specs.Prelude.{ℕ, List};
ghost use Rattle.alf_program.specs.declared.program.Num.{Num};
ghost use Rattle.alf_program.specs.Tree.{BodyItem, Function, item_of, function_of};
ghost use Rattle.alf_reader.specs.Grammar.{opens};
ghost use Rattle.alf_reader.specs.Reading.{alf};
ghost use Rattle.alf_text.specs.Grammar.{opens_target, item, function, target};

use crate::functions::function;
use crate::statements::{item, target};
use alf_program::{Func, Item, Num};
use alf_reader::{Departure, Reader};
use flow_base::Name;
use grammar::Part;

/// Labels and statements.
#[derive(Clone, Copy)]
pub struct Items;

impl<'a> Part<Reader<'a>> for Items {
    type Value = Item;

    type Error = Departure<'a>;

    ghost reading = { alf };

    ghost Seen = { BodyItem };

    ghost view = { item_of };

    ghost goes_on = { λ _. opens };

    ghost rule = { λ _. item };

    fn begins(&self, reader: &Reader<'a>) -> bool {
        reader.at_open()
    }

    fn read(&self, reader: &mut Reader<'a>) -> Result<Item, Departure<'a>> {
        item(reader)
    }

    fn memory() -> Departure<'a> {
        Departure::Memory
    }
}

/// Functions.
#[derive(Clone, Copy)]
pub struct Funcs;

impl<'a> Part<Reader<'a>> for Funcs {
    type Value = Func;

    type Error = Departure<'a>;

    ghost reading = { alf };

    ghost Seen = { Function };

    ghost view = { function_of };

    ghost goes_on = { λ _. opens };

    ghost rule = { λ _. function };

    fn begins(&self, reader: &Reader<'a>) -> bool {
        reader.at_open()
    }

    fn read(&self, reader: &mut Reader<'a>) -> Result<Func, Departure<'a>> {
        function(reader)
    }

    fn memory() -> Departure<'a> {
        Departure::Memory
    }
}

/// The targets of a switch.
#[derive(Clone, Copy)]
pub struct Targets;

impl<'a> Part<Reader<'a>> for Targets {
    type Value = (Num, Name);

    type Error = Departure<'a>;

    ghost reading = { alf };

    ghost Seen = { Num × List ℕ };

    ghost view = { λ x. x };

    ghost goes_on = { λ _. opens_target };

    ghost rule = { λ _. target };

    fn begins(&self, reader: &Reader<'a>) -> bool {
        reader.at_word(b"target")
    }

    fn read(&self, reader: &mut Reader<'a>) -> Result<(Num, Name), Departure<'a>> {
        target(reader)
    }

    fn memory() -> Departure<'a> {
        Departure::Memory
    }
}
