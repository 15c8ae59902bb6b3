//! Lines of facts.

ghost use Rattle.std.specs.Prelude.{◌≡◌, []};
ghost use Rattle.grammar.specs.Chain.{grow};
ghost use Rattle.fact_words.specs.Ahead.{lexeme};
ghost use Rattle.flow_facts.specs.Writable.{kind_place};
ghost use Rattle.fact_text.specs.Grammar.{place_of_word, fact_begins, last_place, may_stand, bounds, loop_fact};
ghost use Rattle.fact_text.specs.Grammar.{count_fact, dead_fact, total_fact, pair_fact, cause, alarm_fact, fact_tail};
ghost use Rattle.fact_text.specs.Grammar.{follows, low_fits, fact, last_of, next_fact};
ghost use Rattle.fact_text.specs.Reading.{position, Reads};

use crate::order::comes_before;
use crate::reader::Reader;
use fact_words::{Departure, Token, number_within};
use flow_facts::{Fact, RunKind};

const MOST_COUNT: u128 = 0xffff_ffff;

// The place of the kind of fact that a word names.
#[tactic(auto, unfolding(crate::specs::Grammar::place_of_word))]
fn place_of_word(word: &[u8]) -> Option<u8>
    ensures { result ≡ place_of_word word.now }
{
    if word == b"loop".as_slice() {
        Some(0)
    } else if word == b"count".as_slice() {
        Some(1)
    } else if word == b"dead".as_slice() {
        Some(2)
    } else if word == b"total".as_slice() {
        Some(3)
    } else if word == b"pair".as_slice() {
        Some(4)
    } else if word == b"alarm".as_slice() {
        Some(5)
    } else {
        None
    }
}

fn kind_place(fact: &Fact) -> u8
    ensures { result ≡ kind_place fact.now }
{
    match fact {
        Fact::Loop(_, _, _) => 0,
        Fact::Count(_, _, _, _) => 1,
        Fact::Dead(_) => 2,
        Fact::Total(_, _, _) => 3,
        Fact::Pair(_, _, _) => 4,
        Fact::Alarm(_, _) => 5,
    }
}

fn last_place(last: &Option<Fact>) -> u8
    ensures { result ≡ last_place last.now }
{
    match last {
        None => 0,
        Some(fact) => kind_place(fact),
    }
}

// Whether a fact of this kind may come after the last one, in this form.
fn may_stand(form: u8, last: &Option<Fact>, place: Option<u8>) -> bool
    ensures { result ≡ may_stand form last.now place }
{
    match place {
        None => false,
        Some(kind) => last_place(last) <= kind && (kind != 1 || form == 2),
    }
}

// The last of the facts, if there is one.
#[tactic(auto, using(crate::proofs::Lasts::last_is))]
fn last_of(facts: &[Fact]) -> Option<Fact>
    ensures { result ≡ last_of facts.now }
{
    facts.last().copied()
}

fn low_fits(fact: &Fact) -> bool
    ensures { result ≡ low_fits fact.now }
{
    match fact {
        Fact::Loop(_, low, high) => low <= high,
        Fact::Count(_, _, low, high) => low <= high,
        Fact::Total(_, low, high) => low <= high,
        Fact::Dead(_) => true,
        Fact::Pair(_, _, _) => true,
        Fact::Alarm(_, _) => true,
    }
}

fn follows(last: &Option<Fact>, fact: &Fact) -> bool
    ensures { result ≡ follows last.now fact.now }
{
    match last {
        None => true,
        Some(before) => comes_before(before, fact),
    }
}

impl<'a> Reader<'a> {
    /// Whether a line of a fact begins. Nothing is taken.
    fn at_fact(&self) -> bool
        ensures { result ≡ fact_begins [] (position self.now) }
    {
        match self.peek() {
            Some(token) => token.line && place_of_word(token.text).is_some(),
            None => false,
        }
    }

    // The least and the greatest count, with the place of the second.
    #[tactic(auto, unfolding(crate::specs::Grammar::bounds, crate::specs::Grammar::told))]
    fn bounds(&mut self) -> Result<(u32, u32, usize), Departure>
        ensures { Reads bounds (λ x. x) result self.old self.new }
    {
        let low = self.count()?;
        let token = self.next_word()?;
        let high = number_within(token.text, MOST_COUNT, token.left)?;
        Ok((low, high as u32, token.left))
    }

    #[tactic(auto, unfolding(crate::specs::Grammar::loop_fact))]
    fn loop_fact(&mut self) -> Result<(Fact, usize), Departure>
        ensures { Reads loop_fact (λ x. x) result self.old self.new }
    {
        let scope = self.count()?;
        let (low, high, left) = self.bounds()?;
        Ok((Fact::Loop(scope, low, high), left))
    }

    #[tactic(auto, unfolding(crate::specs::Grammar::count_fact))]
    fn count_fact(&mut self) -> Result<(Fact, usize), Departure>
        ensures { Reads count_fact (λ x. x) result self.old self.new }
    {
        let scope = self.count()?;
        let node = self.count()?;
        let (low, high, left) = self.bounds()?;
        Ok((Fact::Count(scope, node, low, high), left))
    }

    #[tactic(auto, unfolding(crate::specs::Grammar::dead_fact))]
    fn dead_fact(&mut self) -> Result<(Fact, usize), Departure>
        ensures { Reads dead_fact (λ x. x) result self.old self.new }
    {
        let node = self.count()?;
        Ok((Fact::Dead(node), 0))
    }

    #[tactic(auto, unfolding(crate::specs::Grammar::total_fact))]
    fn total_fact(&mut self) -> Result<(Fact, usize), Departure>
        ensures { Reads total_fact (λ x. x) result self.old self.new }
    {
        let node = self.count()?;
        let (low, high, left) = self.bounds()?;
        Ok((Fact::Total(node, low, high), left))
    }

    #[tactic(auto, unfolding(crate::specs::Grammar::pair_fact))]
    fn pair_fact(&mut self) -> Result<(Fact, usize), Departure>
        ensures { Reads pair_fact (λ x. x) result self.old self.new }
    {
        let scope = self.count()?;
        let first = self.count()?;
        let second = self.count()?;
        Ok((Fact::Pair(scope, first, second), 0))
    }

    #[tactic(auto, unfolding(crate::specs::Grammar::cause, crate::specs::Grammar::told))]
    fn cause(&mut self) -> Result<RunKind, Departure>
        ensures { Reads cause (λ x. x) result self.old self.new }
    {
        let token = self.next_word()?;
        if token.text == b"divide".as_slice() {
            Ok(RunKind::Divide)
        } else if token.text == b"uninit".as_slice() {
            Ok(RunKind::Uninit)
        } else if token.text == b"mixed".as_slice() {
            Ok(RunKind::Mixed)
        } else if token.text == b"bounds".as_slice() {
            Ok(RunKind::Bounds)
        } else if token.text == b"dead".as_slice() {
            Ok(RunKind::Dead)
        } else if token.text == b"kind".as_slice() {
            Ok(RunKind::Kind)
        } else if token.text == b"pointers".as_slice() {
            Ok(RunKind::Pointers)
        } else {
            Err(Departure::Syntax(token.left))
        }
    }

    #[tactic(auto, unfolding(crate::specs::Grammar::alarm_fact))]
    fn alarm_fact(&mut self) -> Result<(Fact, usize), Departure>
        ensures { Reads alarm_fact (λ x. x) result self.old self.new }
    {
        let node = self.count()?;
        let kind = self.cause()?;
        Ok((Fact::Alarm(node, kind), 0))
    }

    // What follows the first word of a line, with the place at which the bounds are tested.
    #[tactic(auto, unfolding(crate::specs::Grammar::fact_tail, crate::specs::Grammar::unknown))]
    fn fact_tail(&mut self, word: Token<'a>) -> Result<(Fact, usize), Departure>
        ensures { Reads (fact_tail (lexeme word.entry)) (λ x. x) result self.old self.new }
    {
        if word.text == b"loop".as_slice() {
            self.loop_fact()
        } else if word.text == b"count".as_slice() {
            self.count_fact()
        } else if word.text == b"dead".as_slice() {
            self.dead_fact()
        } else if word.text == b"total".as_slice() {
            self.total_fact()
        } else if word.text == b"pair".as_slice() {
            self.pair_fact()
        } else if word.text == b"alarm".as_slice() {
            self.alarm_fact()
        } else {
            Err(Departure::Syntax(word.left))
        }
    }

    /// The line of a fact after that of the last one.
    #[tactic(auto, unfolding(crate::specs::Grammar::fact, crate::specs::Grammar::told))]
    fn fact(&mut self, form: u8, last: &Option<Fact>) -> Result<Fact, Departure>
        ensures { Reads (fact form last.now) (λ x. x) result self.old self.new }
    {
        let word = self.line_word()?;
        if !may_stand(form, last, place_of_word(word.text)) {
            return Err(Departure::Syntax(word.left));
        }
        let (fact, left) = self.fact_tail(word)?;
        if !follows(last, &fact) {
            return Err(Departure::Syntax(word.left));
        }
        if !low_fits(&fact) {
            return Err(Departure::Syntax(left));
        }
        Ok(fact)
    }

    // The line of the fact after these.
    fn next_fact(&mut self, form: u8, facts: Vec<Fact>) -> Result<Vec<Fact>, Departure>
        ensures { Reads (next_fact form facts.items) (λ x. x.items) result self.old self.new }
    {
        let last = last_of(&facts);
        let fact = self.fact(form, &last)?;
        let mut facts = facts;
        facts.push(fact)?;
        Ok(facts)
    }

    /// The lines of all facts.
    pub fn facts(&mut self, form: u8) -> Result<Vec<Fact>, Departure>
        ensures { Reads (grow fact_begins (next_fact form) []) (λ x. x.items) result self.old self.new }
    {
        let mut facts = Vec::new(self.alloc);
        while self.at_fact() {
            match self.next_fact(form, facts) {
                Ok(next) => facts = next,
                Err(error) => return Err(error),
            }
        }
        Ok(facts)
    }
}
