//! The tokens of a unit.

ghost use Rattle.std.specs.Prelude.{◌≡◌, List, map};
ghost use Rattle.c_unit.specs.Units.{Word, word_of_span, unit_of};
ghost use Rattle.c_rules.specs.Names.{text_at, worth_at};

use c_tokens::{Kind, Worth, worth_of};
use c_unit::{CUnit, Span, range};
use std::marker::Model;

/// The tokens of a unit, in order, with their texts and places.
#[derive(Drop)]
pub struct Words<'a> {
    text: &'a [u8],
    tokens: &'a [Span],
}

impl<'a> Model for Words<'a> {
    ghost Value = { List Word };

    ghost view = { λ words. map (word_of_span words.text.now) words.tokens.now };
}

impl<'a> Words<'a> {
    /// The tokens of this unit. Takes no memory.
    pub fn of(unit: &'a CUnit) -> Self
        ensures { result ≡ (unit_of unit.now).words }
    {
        Words {
            text: unit.text.as_slice(),
            tokens: unit.tokens.as_slice(),
        }
    }

    /// The bytes of a token; past the last token there are none. Takes no memory.
    pub fn text_at(&self, token: u32) -> &'a [u8]
        ensures { result.now ≡ text_at self.now token }
    {
        match self.tokens.get(token as usize) {
            Some(span) => range(self.text, *span),
            None => &[],
        }
    }

    /// What a token is worth as a constant. Takes no memory.
    pub fn worth_at(&self, token: u32) -> Worth
        ensures { result ≡ worth_at self.now token }
    {
        let text = self.text_at(token);
        match text.first() {
            None => Worth::NoConstant,
            Some(first) => {
                if *first == b'\'' {
                    worth_of(Kind::Character, text)
                } else {
                    worth_of(Kind::Number, text)
                }
            }
        }
    }
}
