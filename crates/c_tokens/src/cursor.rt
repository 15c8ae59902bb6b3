ghost use Rattle.std.specs.Prelude.{◌≡◌, ◌<◌, ◌++◌, [], length, IsNone};
ghost use Rattle.c_tokens.specs.Tokens.{tokens_of, shown};
ghost use Rattle.c_tokens.specs.Ahead.{lexeme, ahead, taken, first};

use crate::lexer::cut_piece;
use crate::token::{Kind, Token};

/// A place in a text. Tokens are cut as they are asked for, so it takes no memory.
#[derive(Clone, Copy)]
pub struct Cursor<'a> {
    rest: &'a [u8],
}

impl<'a> Cursor<'a> {
    /// Before the whole of a text.
    pub fn new(text: &'a [u8]) -> Self
        ensures { ahead result ≡ tokens_of text.now }
    {
        Cursor { rest: text }
    }

    // Takes the first piece.
    fn piece(&mut self) -> Token<'a>
        requires { 0 < length self.old.rest.now }
        ensures tokens { ahead self.old ≡ shown (lexeme result) ++ ahead self.new }
        ensures shorter { length self.new.rest.now < length self.old.rest.now }
    {
        let left = self.rest.len();
        let (kind, len) = cut_piece(self.rest);
        let (text, after) = self.rest.split_at(len);
        self.rest = after;
        Token { kind, text, left }
    }

    /// Takes the next token, or none at the end of the text.
    pub fn next(&mut self) -> Option<Token<'a>>
        ensures token { ahead self.old ≡ taken result ++ ahead self.new }
        ensures end { IsNone result → ahead self.old ≡ [] }
    {
        while !self.rest.is_empty() {
            let token = self.piece();
            if token.kind != Kind::White {
                return Some(token);
            }
        }
        None
    }

    /// The next token, or none at the end of the text. Nothing is taken.
    pub fn peek(&self) -> Option<Token<'a>>
        ensures { taken result ≡ first (ahead self.now) }
    {
        let mut ahead = *self;
        match ahead.next() {
            Some(token) => Some(token),
            None => None,
        }
    }
}
