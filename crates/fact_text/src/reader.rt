//! A place in a text, and what is read of single words there.

ghost use Rattle.std.specs.Prelude.{◌≡◌, ◌≤◌, ◌<◌, ◌-◌, None, Some, IfOk, IfErr};
ghost use Rattle.std.specs.Option.{option_map};
ghost use Rattle.grammar.specs.Form.{first, after};
ghost use Rattle.fact_words.specs.Ahead.{lexeme};
ghost use Rattle.fact_words.specs.declared.fault.FaultAt.TheVariants.{Syntax};
ghost use Rattle.fact_text.specs.Language.{start};
ghost use Rattle.fact_text.specs.Grammar.{line_is, line_word, next_word, begins, number, count, whole};
ghost use Rattle.fact_text.specs.Reading.{position, Reads};

use fact_words::{Cursor, Departure, Token, number_within, whole_within};
use std::alloc::Global;

/// A place in a text.
#[derive(Clone, Copy)]
pub struct Reader<'a> {
    pub alloc: Global,
    pub cursor: Cursor<'a>,
}

impl<'a> Reader<'a> {
    /// Before the whole of a text.
    pub fn new(alloc: Global, text: &'a [u8]) -> Self
        ensures { position result ≡ start text.now }
    {
        Reader {
            alloc,
            cursor: Cursor::new(text),
        }
    }

    // Takes the next word, or none at the end of the text.
    fn next(&mut self) -> Option<Token<'a>>
        ensures token { option_map lexeme result ≡ first (position self.old) }
        ensures rest { position self.new ≡ after (position self.old) }
    {
        match self.cursor.next() {
            Some(token) => Some(token),
            None => None,
        }
    }

    /// The next word. Nothing is taken.
    pub fn peek(&self) -> Option<Token<'a>>
        ensures { option_map lexeme result ≡ first (position self.now) }
    {
        let mut ahead = *self;
        ahead.next()
    }

    // Takes the next word. At the end of the text none fits.
    fn token(&mut self) -> Result<Token<'a>, Departure>
        ensures found { IfOk result (λ token. first (position self.old) ≡ Some (lexeme token)) }
        ensures rest { IfOk result (λ token. position self.new ≡ after (position self.old)) }
        ensures end { IfErr result (λ departure. (departure ≡ Syntax 0) × (first (position self.old) ≡ None)) }
    {
        match self.next() {
            Some(token) => Ok(token),
            None => Err(Departure::Syntax(0)),
        }
    }

    /// Whether a line begins with this word. Nothing is taken.
    pub fn line_is(&self, word: &[u8]) -> bool
        ensures { result ≡ line_is word.now (position self.now) }
    {
        match self.peek() {
            Some(token) => token.line && token.text == word,
            None => false,
        }
    }

    /// The first word of a line.
    #[tactic(auto, unfolding(crate::specs::Grammar::line_word))]
    pub fn line_word(&mut self) -> Result<Token<'a>, Departure>
        ensures { Reads line_word lexeme result self.old self.new }
    {
        let token = self.token()?;
        if token.line {
            Ok(token)
        } else {
            Err(Departure::Syntax(token.left))
        }
    }

    /// A word after a space.
    #[tactic(auto, unfolding(crate::specs::Grammar::next_word))]
    pub fn next_word(&mut self) -> Result<Token<'a>, Departure>
        ensures { Reads next_word lexeme result self.old self.new }
    {
        let token = self.token()?;
        if !token.line {
            return Ok(token);
        }
        match token.left.checked_add(1) {
            Some(left) => Err(Departure::Syntax(left)),
            // No text is so long.
            None => Err(Departure::Memory),
        }
    }

    /// This word, which begins a line.
    #[tactic(auto, unfolding(crate::specs::Grammar::begins, crate::specs::Grammar::told))]
    pub fn begins(&mut self, word: &[u8]) -> Result<(), Departure>
        ensures { Reads (begins word.now) (λ x. x) result self.old self.new }
    {
        let token = self.line_word()?;
        if token.text == word {
            Ok(())
        } else {
            Err(Departure::Syntax(token.left))
        }
    }

    /// A number of at most so much.
    #[tactic(auto, unfolding(crate::specs::Grammar::number, crate::specs::Grammar::told))]
    pub fn number(&mut self, most: u64) -> Result<u64, Departure>
        ensures exact { Reads (number most) (λ x. x) result self.old self.new }
        ensures within { IfOk result (λ n. n ≤ most) }
    {
        let token = self.next_word()?;
        let number = number_within(token.text, u128::from(most), token.left)?;
        Ok(number as u64)
    }

    /// A number of 32 bits.
    #[tactic(auto, unfolding(crate::specs::Grammar::count))]
    pub fn count(&mut self) -> Result<u32, Departure>
        ensures { Reads count (λ x. x) result self.old self.new }
    {
        let number = self.number(0xffff_ffff)?;
        Ok(number as u32)
    }

    /// A whole number of 128 bits.
    #[tactic(auto, unfolding(crate::specs::Grammar::whole, crate::specs::Grammar::told))]
    pub fn whole(&mut self) -> Result<i128, Departure>
        ensures { Reads whole (λ x. x) result self.old self.new }
    {
        let token = self.next_word()?;
        whole_within(token.text, token.left)
    }
}
