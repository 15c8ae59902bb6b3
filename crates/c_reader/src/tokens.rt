//! The tokens of a text, as the grammar sees them.

ghost use Rattle.std.specs.Prelude.{◌≡◌, ◌+◌, ◌^◌, ◌↔◌, IsTrue, map, IfOk};
ghost use Rattle.c_tokens.specs.Tokens.{tokens_of};
ghost use Rattle.c_unit.specs.Units.{word_of};
ghost use Rattle.c_reader.specs.Reading.{seen_in, span_of, word_in, numbered};

use c_grammar::{Symbol, symbol_of};
use c_tokens::{Cursor, tokens_stand_in_their_texts};
use c_unit::Span;
use std::alloc::{AllocError, Global};

/// A token that was taken: what it is to the grammar, its number, and its bytes.
#[derive(Clone, Copy, Debug)]
pub struct Token<'a> {
    pub symbol: Symbol,
    pub number: u32,
    pub text: &'a [u8],
}

/// A token of a text that was cut: its bytes are a range of the text.
#[derive(Clone, Copy, Debug)]
pub struct CutToken {
    pub symbol: Symbol,
    pub number: u32,
    pub span: Span,
}

// Whether 32 bits have no number after this one.
fn is_last(number: u32) -> bool
    ensures { IsTrue result ↔ number + 1 ≡ 2 ^ 32 }
{
    number == u32::MAX
}

/// The tokens of a text in order, as the grammar sees them, and as words of the text. A text of more tokens than
/// 32 bits number wants memory.
pub fn cut(alloc: Global, text: &[u8]) -> Result<Vec<CutToken>, AllocError>
    ensures tokens { IfOk result (λ tokens. map (seen_in text.now) tokens.items ≡ numbered 0 (tokens_of text.now)) }
    ensures words { IfOk result
        (λ tokens. map (word_in text.now) tokens.items ≡ map (word_of text.now) (tokens_of text.now)) }
{
    tokens_stand_in_their_texts();
    let mut cursor = Cursor::new(text);
    let mut tokens = Vec::new(alloc);
    let mut number = 0;
    while let Some(token) = cursor.next() {
        if is_last(number) {
            return Err(AllocError);
        }
        let span = Span {
            start: text.len().saturating_sub(token.left),
            len: token.text.len(),
        };
        tokens.push(CutToken {
            symbol: symbol_of(token.kind, token.text),
            number,
            span,
        })?;
        number += 1;
    }
    Ok(tokens)
}

/// The ranges of tokens that were cut, in order.
pub fn spans(alloc: Global, tokens: &[CutToken]) -> Result<Vec<Span>, AllocError>
    ensures { IfOk result (λ spans. spans.items ≡ map span_of tokens.now) }
{
    let mut spans = Vec::with_capacity(alloc, tokens.len())?;
    for token in tokens {
        spans.push(token.span)?;
    }
    Ok(spans)
}
