ghost use Rattle.std.specs.Prelude.{◌≡◌, ◌<◌, ◌≤◌, ◌++◌, [], length, IsNone};
ghost use Rattle.alf_tokens.specs.declared.token.Kind.TheVariants as kinds;
ghost use Rattle.alf_tokens.specs.Tokens.{tokens_of, shown, text_of, is_numeral};
ghost use Rattle.alf_tokens.specs.Ahead.{lexeme, ahead, taken, opens};

use crate::lexer::piece;
use crate::token::{Kind, Token};

/// A place in a text. Tokens are cut as they are asked for, so it takes no memory.
#[derive(Clone, Copy)]
pub struct Cursor<'a> {
    rest: &'a [u8],
    /// A number ends right before the rest.
    numbered: bool,
}

// The piece of these bytes, where so many are left.
fn token(kind: Kind, bytes: &[u8], left: usize) -> Token<'_>
    requires { kind ≡ kinds.Quoted → 2 ≤ length bytes.now }
    ensures { lexeme result ≡ record { kind = kind; text = text_of kind bytes.now; left = left } }
{
    match kind {
        Kind::Quoted => Token {
            kind,
            text: &bytes[1..bytes.len() - 1],
            left,
        },
        _ => Token {
            kind,
            text: bytes,
            left,
        },
    }
}

// A number, of however many digits.
fn is_numeral(kind: Kind) -> bool
    ensures { result ≡ is_numeral kind }
{
    matches!(kind, Kind::Number | Kind::Long)
}

impl<'a> Cursor<'a> {
    /// Before the whole of a text.
    #[tactic(auto, unfolding(crate::specs::Tokens::tokens_of))]
    pub fn new(text: &'a [u8]) -> Self
        ensures { ahead result ≡ tokens_of text.now }
    {
        Cursor {
            rest: text,
            numbered: false,
        }
    }

    // Takes the first piece.
    fn piece(&mut self) -> Token<'a>
        requires { 0 < length self.old.rest.now }
        ensures tokens { ahead self.old ≡ shown (lexeme result) ++ ahead self.new }
        ensures shorter { length self.new.rest.now < length self.old.rest.now }
    {
        let left = self.rest.len();
        let (kind, len) = piece(self.numbered, self.rest);
        let (bytes, after) = self.rest.split_at(len);
        self.rest = after;
        self.numbered = is_numeral(kind);
        token(kind, bytes, left)
    }

    /// Takes the next token, or none at the end of the text.
    pub fn next(&mut self) -> Option<Token<'a>>
        ensures token { ahead self.old ≡ taken result ++ ahead self.new }
        ensures end { IsNone result → ahead self.old ≡ [] }
    {
        while !self.rest.is_empty() {
            let token = self.piece();
            if token.kind != Kind::White {
                return Some(token);
            }
        }
        None
    }

    /// Whether the next token is a brace that opens. Nothing is taken.
    pub fn at_open(&self) -> bool
        ensures { result ≡ opens (ahead self.now) }
    {
        let mut ahead = *self;
        match ahead.next() {
            Some(token) => token.kind == Kind::Open,
            None => false,
        }
    }
}
