ghost use Rattle.std.specs.Prelude.{◌≡◌, ◌++◌, [], IsNone};
ghost use Rattle.fact_words.specs.Tokens.{tokens_of, others_of};
ghost use Rattle.fact_words.specs.Ahead.{ahead, taken};

use crate::token::Token;
use crate::word_length::word_len;

/// A place in a text. Tokens are cut as they are asked for, so it takes no memory.
#[derive(Clone, Copy)]
pub struct Cursor<'a> {
    /// The next word begins a line.
    line: bool,
    /// The bytes from the next word on, if there is a next word.
    rest: Option<&'a [u8]>,
}

// What follows the byte that ends a word.
fn following(after: &[u8]) -> Cursor<'_>
    ensures { ahead result ≡ others_of after.now }
{
    match after {
        [] => Cursor {
            line: false,
            rest: None,
        },
        [byte, rest @ ..] => Cursor {
            line: *byte == b'\n',
            rest: Some(rest),
        },
    }
}

impl<'a> Cursor<'a> {
    /// Before the whole of a text.
    pub fn new(text: &'a [u8]) -> Self
        ensures { ahead result ≡ tokens_of text.now }
    {
        Cursor {
            line: true,
            rest: Some(text),
        }
    }

    /// Takes the next token, or none at the end of the text.
    pub fn next(&mut self) -> Option<Token<'a>>
        ensures token { ahead self.old ≡ taken result ++ ahead self.new }
        ensures end { IsNone result → ahead self.old ≡ [] }
    {
        let Some(rest) = self.rest else {
            return None;
        };
        let (text, after) = rest.split_at(word_len(rest));
        let token = Token {
            line: self.line,
            text,
            left: rest.len(),
        };
        *self = following(after);
        Some(token)
    }
}
