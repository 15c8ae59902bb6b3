//! Lines of certificates.

ghost use Rattle.std.specs.Prelude.{◌≡◌, codes};
ghost use Rattle.grammar.specs.Rule.{many};
ghost use Rattle.flow_facts.specs.Reports.{certificate_of};
ghost use Rattle.fact_words.specs.Ahead.{lexeme};
ghost use Rattle.fact_text.specs.Grammar.{event_begins, step, merge, event_tail, event, scale, line_is, multiplier};
ghost use Rattle.fact_text.specs.Grammar.{cert};
ghost use Rattle.fact_text.specs.Reading.{position, Reads};

use crate::reader::Reader;
use crate::sequences::{Events, Multipliers};
use domain_core::Event;
use fact_words::{Departure, Token, is_positive, whole_within};
use flow_facts::Cert;
use grammar::many;

impl<'a> Reader<'a> {
    /// Whether a line of an event begins. Nothing is taken.
    pub fn at_event(&self) -> bool
        ensures { result ≡ event_begins (position self.now) }
    {
        match self.peek() {
            Some(token) => {
                token.line
                    && (token.text == b"step".as_slice() || token.text == b"merge".as_slice())
            }
            None => false,
        }
    }

    #[tactic(auto, unfolding(crate::specs::Grammar::step))]
    fn step(&mut self) -> Result<Event, Departure>
        ensures { Reads step (λ x. x) result self.old self.new }
    {
        let place = self.count()?;
        Ok(Event::Step(place))
    }

    #[tactic(auto, unfolding(crate::specs::Grammar::merge))]
    fn merge(&mut self) -> Result<Event, Departure>
        ensures { Reads merge (λ x. x) result self.old self.new }
    {
        let first = self.count()?;
        let second = self.count()?;
        Ok(Event::Merge(first, second))
    }

    #[tactic(auto, unfolding(crate::specs::Grammar::event_tail, crate::specs::Grammar::unknown))]
    fn event_tail(&mut self, word: Token<'a>) -> Result<Event, Departure>
        ensures { Reads (event_tail (lexeme word.entry)) (λ x. x) result self.old self.new }
    {
        if word.text == b"step".as_slice() {
            self.step()
        } else if word.text == b"merge".as_slice() {
            self.merge()
        } else {
            Err(Departure::Syntax(word.left))
        }
    }

    /// The line of an event.
    #[tactic(auto, unfolding(crate::specs::Grammar::event))]
    pub fn event(&mut self) -> Result<Event, Departure>
        ensures { Reads event (λ x. x) result self.old self.new }
    {
        let word = self.line_word()?;
        self.event_tail(word)
    }

    #[tactic(auto, unfolding(crate::specs::Grammar::scale, crate::specs::Grammar::told))]
    fn scale(&mut self) -> Result<i128, Departure>
        ensures { Reads scale (λ x. x) result self.old self.new }
    {
        self.begins(b"scale")?;
        let token = self.next_word()?;
        let scale = whole_within(token.text, token.left)?;
        if is_positive(scale) {
            Ok(scale)
        } else {
            Err(Departure::Syntax(token.left))
        }
    }

    /// The line of a multiplier.
    #[tactic(auto, unfolding(crate::specs::Grammar::multiplier))]
    pub fn multiplier(&mut self) -> Result<i128, Departure>
        ensures { Reads multiplier (λ x. x) result self.old self.new }
    {
        self.begins(b"mul")?;
        let multiplier = self.whole()?;
        Ok(multiplier)
    }

    fn events(&mut self) -> Result<Vec<Event>, Departure>
        ensures { Reads (many event_begins event) (λ x. x.items) result self.old self.new }
    {
        let events = many(self.alloc, &Events, self)?;
        Ok(events)
    }

    fn multipliers(&mut self) -> Result<Vec<i128>, Departure>
        ensures { Reads (many (line_is (codes "mul")) multiplier) (λ x. x.items) result self.old self.new }
    {
        let multipliers = many(self.alloc, &Multipliers, self)?;
        Ok(multipliers)
    }

    /// The lines of a certificate.
    #[tactic(auto, unfolding(crate::specs::Grammar::cert))]
    pub fn cert(&mut self) -> Result<Cert, Departure>
        ensures { Reads cert certificate_of result self.old self.new }
    {
        self.begins(b"cert")?;
        let events = self.events()?;
        let scale = self.scale()?;
        let multipliers = self.multipliers()?;
        Ok(Cert {
            events,
            scale,
            multipliers,
        })
    }
}
