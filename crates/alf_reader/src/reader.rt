//! A place in a text, and what is read of single tokens there.

ghost use Rattle.std.specs.Prelude.{◌≡◌, ◌≤◌, ◌<◌, None, Some, IfOk, IfErr, IfSome};
ghost use Rattle.std.specs.Option.{option_map};
ghost use Rattle.flow_base.specs.Digits.{prefix_digits};
ghost use Rattle.grammar.specs.Form.{first, after};
ghost use Rattle.alf_tokens.specs.Tokens.{tokens_of};
ghost use Rattle.alf_tokens.specs.Ahead.{lexeme};
ghost use Rattle.alf_reader.specs.declared.fault.FaultAt.TheVariants.{Syntax};
ghost use Rattle.alf_reader.specs.Grammar.{opens, opens_word, opening, closing, end, some_word, word, begin, between};
ghost use Rattle.alf_reader.specs.Grammar.{fixed, size, at_most, name, number_within, number_between};
ghost use Rattle.alf_reader.specs.Reading.{position, Reads};

use crate::fault::{Departure, misfit, outside};
use alf_tokens::{Cursor, Kind, Token};
use flow_base::{Name, digits};
use std::alloc::Global;

/// How many functions, frames and bytes of frames there may still be.
#[derive(Clone, Copy)]
pub struct Counts {
    pub functions: u64,
    pub frames: u64,
    pub bytes: u64,
}

/// A place in a text, and what there may still be of what is counted.
#[derive(Clone, Copy)]
pub struct Reader<'a> {
    pub alloc: Global,
    pub cursor: Cursor<'a>,
    pub functions: u64,
    pub frames: u64,
    pub bytes: u64,
}

/// The number that the digits write, where it is at most so much.
fn number_within(text: &[u8], most: u128) -> Option<u128>
    ensures value { result ≡ number_within most (prefix_digits text.now) }
    ensures within { IfSome result (λ number. number ≤ most) }
{
    let (number, _) = digits(text, 0, most)?;
    Some(number)
}

/// The number that the digits write, where it is within these bounds and a multiple of the step.
fn number_between(text: &[u8], least: u128, most: u128, step: u128) -> Option<u128>
    requires { 0 < step }
    ensures value { result ≡ number_between least most step text.now }
    ensures within { IfSome result (λ number. (least ≤ number) × (number ≤ most)) }
{
    let number = number_within(text, most)?;
    if least <= number && number % step == 0 {
        Some(number)
    } else {
        None
    }
}

impl<'a> Reader<'a> {
    /// Before the whole of a text.
    pub fn new(alloc: Global, text: &'a [u8], counts: Counts) -> Self
        ensures { position result
            ≡ record {
              ahead = tokens_of text.now;
              room = record { functions = counts.functions; frames = counts.frames; bytes = counts.bytes };
            } }
    {
        Reader {
            alloc,
            cursor: Cursor::new(text),
            functions: counts.functions,
            frames: counts.frames,
            bytes: counts.bytes,
        }
    }

    /// Takes the next token, or none at the end of the text.
    fn next(&mut self) -> Option<Token<'a>>
        ensures token { option_map lexeme result ≡ first (position self.old) }
        ensures rest { position self.new ≡ after (position self.old) }
    {
        match self.cursor.next() {
            Some(token) => Some(token),
            None => None,
        }
    }

    /// Takes the next token. At the end of the text none fits.
    pub fn token(&mut self) -> Result<Token<'a>, Departure<'a>>
        ensures found { IfOk result (λ token. first (position self.old) ≡ Some (lexeme token)) }
        ensures rest { IfOk result (λ token. position self.new ≡ after (position self.old)) }
        ensures end { IfErr result (λ departure. (departure ≡ Syntax 0) × (first (position self.old) ≡ None)) }
    {
        match self.next() {
            Some(token) => Ok(token),
            None => Err(Departure::Syntax(0)),
        }
    }

    /// Whether a brace opens. Nothing is taken.
    pub fn at_open(&self) -> bool
        ensures { result ≡ opens (position self.now) }
    {
        let mut ahead = *self;
        match ahead.next() {
            Some(token) => token.kind == Kind::Open,
            None => false,
        }
    }

    /// Whether a brace opens and this word comes next. Nothing is taken.
    pub fn at_word(&self, expected: &[u8]) -> bool
        ensures { result ≡ opens_word expected.now (position self.now) }
    {
        let mut ahead = *self;
        match ahead.next() {
            Some(brace) if brace.kind == Kind::Open => match ahead.next() {
                Some(word) => word.kind == Kind::Word && word.text == expected,
                None => false,
            },
            _ => false,
        }
    }

    /// A brace that opens.
    #[tactic(auto, unfolding(crate::specs::Grammar::opening))]
    pub fn opening(&mut self) -> Result<(), Departure<'a>>
        ensures { Reads opening (λ x. x) result self.old self.new }
    {
        let token = self.token()?;
        if token.kind == Kind::Open {
            Ok(())
        } else {
            Err(misfit(token))
        }
    }

    /// A brace that closes.
    #[tactic(auto, unfolding(crate::specs::Grammar::closing))]
    pub fn closing(&mut self) -> Result<(), Departure<'a>>
        ensures { Reads closing (λ x. x) result self.old self.new }
    {
        let token = self.token()?;
        if token.kind == Kind::Close {
            Ok(())
        } else {
            Err(misfit(token))
        }
    }

    /// The end of the text. Nothing is taken.
    #[tactic(auto, unfolding(crate::specs::Grammar::end))]
    pub fn end(&mut self) -> Result<(), Departure<'a>>
        ensures { Reads end (λ x. x) result self.old self.new }
    {
        let mut ahead = *self;
        match ahead.next() {
            Some(token) => Err(misfit(token)),
            None => Ok(()),
        }
    }

    /// Any word.
    #[tactic(auto, unfolding(crate::specs::Grammar::some_word))]
    pub fn some_word(&mut self) -> Result<Token<'a>, Departure<'a>>
        ensures { Reads some_word lexeme result self.old self.new }
    {
        let token = self.token()?;
        if token.kind == Kind::Word {
            Ok(token)
        } else {
            Err(misfit(token))
        }
    }

    /// This word.
    #[tactic(auto, unfolding(crate::specs::Grammar::word))]
    pub fn word(&mut self, expected: &[u8]) -> Result<(), Departure<'a>>
        ensures { Reads (word expected.now) (λ x. x) result self.old self.new }
    {
        let token = self.token()?;
        if token.kind != Kind::Word {
            return Err(misfit(token));
        }
        if token.text == expected {
            Ok(())
        } else {
            Err(outside(token))
        }
    }

    /// A brace and its word.
    #[tactic(auto, unfolding(crate::specs::Grammar::begin))]
    pub fn begin(&mut self, expected: &[u8]) -> Result<(), Departure<'a>>
        ensures { Reads (begin expected.now) (λ x. x) result self.old self.new }
    {
        self.opening()?;
        self.word(expected)?;
        Ok(())
    }

    /// A number from the least to the most, a multiple of the step.
    #[tactic(auto, unfolding(crate::specs::Grammar::between))]
    pub fn between(&mut self, least: u128, most: u128, step: u128) -> Result<u128, Departure<'a>>
        requires { 0 < step }
        ensures exact { Reads (between least most step) (λ x. x) result self.old self.new }
        ensures within { IfOk result (λ number. (least ≤ number) × (number ≤ most)) }
    {
        let token = self.token()?;
        if token.kind != Kind::Number {
            return Err(misfit(token));
        }
        match number_between(token.text, least, most, step) {
            Some(number) => Ok(number),
            None => Err(outside(token)),
        }
    }

    /// This number.
    #[tactic(auto, unfolding(crate::specs::Grammar::fixed))]
    pub fn fixed(&mut self, expected: u32) -> Result<(), Departure<'a>>
        ensures { Reads (fixed expected) (λ x. x) result self.old self.new }
    {
        self.between(u128::from(expected), u128::from(expected), 1)?;
        Ok(())
    }

    /// A size in bits.
    #[tactic(auto, unfolding(crate::specs::Grammar::size))]
    pub fn size(&mut self) -> Result<u32, Departure<'a>>
        ensures exact { Reads size (λ x. x) result self.old self.new }
        ensures within { IfOk result (λ size. (1 ≤ size) × (size ≤ 64)) }
    {
        let size = self.between(1, 64, 1)?;
        Ok(size as u32)
    }

    /// A number of at most so much.
    #[tactic(auto, unfolding(crate::specs::Grammar::at_most))]
    pub fn at_most(&mut self, most: u64) -> Result<u64, Departure<'a>>
        ensures exact { Reads (at_most most) (λ x. x) result self.old self.new }
        ensures within { IfOk result (λ number. number ≤ most) }
    {
        let token = self.token()?;
        if token.kind != Kind::Number {
            return Err(misfit(token));
        }
        match number_within(token.text, u128::from(most)) {
            Some(number) => Ok(number as u64),
            None => Err(Departure::Number(token.left)),
        }
    }

    /// A name in quotes, which takes memory.
    #[tactic(auto, unfolding(crate::specs::Grammar::name))]
    pub fn name(&mut self) -> Result<Name, Departure<'a>>
        ensures { Reads name (λ x. x) result self.old self.new }
    {
        let token = self.token()?;
        if token.kind != Kind::Quoted {
            return Err(misfit(token));
        }
        Ok(Name::new(self.alloc, token.text)?)
    }
}
