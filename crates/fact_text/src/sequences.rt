//! What stands in lists. Their loop is `grammar::many`.

ghost use Rattle.std.specs.Prelude.{◌≡◌, ℤ, None, codes};
ghost use Rattle.domain_core.specs.declared.event.Event.{Event as EventSeen};
ghost use Rattle.fact_text.specs.Grammar.{event_begins, event, line_is, multiplier};
ghost use Rattle.fact_text.specs.Reading.{lines, fault_of};

use crate::reader::Reader;
use domain_core::Event;
use fact_words::Departure;
use grammar::Part;

/// Events.
#[derive(Clone, Copy)]
pub struct Events;

impl<'a> Part<Reader<'a>> for Events {
    type Value = Event;

    type Error = Departure;

    ghost reading = { lines };

    ghost Seen = { EventSeen };

    ghost view = { λ x. x };

    ghost goes_on = { λ _. event_begins };

    ghost rule = { λ _. event };

    fn begins(&self, reader: &Reader<'a>) -> bool {
        reader.at_event()
    }

    fn read(&self, reader: &mut Reader<'a>) -> Result<Event, Departure> {
        reader.event()
    }

    fn memory() -> Departure
        ensures { fault_of result ≡ None }
    {
        Departure::Memory
    }
}

/// Multipliers.
#[derive(Clone, Copy)]
pub struct Multipliers;

impl<'a> Part<Reader<'a>> for Multipliers {
    type Value = i128;

    type Error = Departure;

    ghost reading = { lines };

    ghost Seen = { ℤ };

    ghost view = { λ x. x };

    ghost goes_on = { λ _. line_is (codes "mul") };

    ghost rule = { λ _. multiplier };

    fn begins(&self, reader: &Reader<'a>) -> bool {
        reader.line_is(b"mul")
    }

    fn read(&self, reader: &mut Reader<'a>) -> Result<i128, Departure> {
        reader.multiplier()
    }

    fn memory() -> Departure
        ensures { fault_of result ≡ None }
    {
        Departure::Memory
    }
}
