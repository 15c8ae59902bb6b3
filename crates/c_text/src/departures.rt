//! First departures, with their places in the text.

ghost use Rattle.std.specs.Prelude.{◌≡◌, map, IfSome, IsSomeAnd};
ghost use Rattle.c_unit.specs.Units.{word_of_span};
ghost use Rattle.c_reader.specs.Reading.{word_in, fault_of};
ghost use Rattle.c_text.specs.Language.{OutsideAt, words_of, end_of, word_at, word_told, placed, departure_of};

use crate::fault::CTextFault;
use c_reader::{CutToken, Departure};
use c_unit::{Span, range};
use flow_base::{Name, Place, place_of};
use std::alloc::Global;

// The range of the token of this number, or of the end of the text.
fn span_at(text: &[u8], tokens: &[CutToken], number: u32) -> Span
    requires { map (word_in text.now) tokens.now ≡ words_of text.now }
    ensures { word_of_span text.now result ≡ word_at text.now number }
{
    match tokens.get(number as usize) {
        Some(token) => token.span,
        None => end_span(text),
    }
}

// The end of a text.
fn end_span(text: &[u8]) -> Span
    ensures { word_of_span text.now result ≡ end_of text.now }
{
    Span {
        start: text.len(),
        len: 0,
    }
}

// The place where a range begins.
fn place_of_span(text: &[u8], span: Span) -> Place
    ensures { result ≡ (word_of_span text.now span).place }
{
    place_of(text, text.len().saturating_sub(span.start))
}

fn outside(alloc: Global, text: &[u8], span: Span) -> CTextFault
    ensures { IfSome (departure_of result)
        (λ told. told ≡ OutsideAt (word_of_span text.now span).place (word_of_span text.now span).text) }
{
    match Name::new(alloc, range(text, span)) {
        Ok(name) => CTextFault::OutOfProfile(place_of_span(text, span), name),
        Err(_) => CTextFault::Memory,
    }
}

// The place of the token of this number, or of the end of the text.
fn place_told(text: &[u8], tokens: &[CutToken], number: Option<u32>) -> Place
    requires { map (word_in text.now) tokens.now ≡ words_of text.now }
    ensures { result ≡ (word_told text.now number).place }
{
    match number {
        Some(number) => place_of_span(text, span_at(text, tokens, number)),
        None => place_of_span(text, end_span(text)),
    }
}

/// The departure with its place in the text, whose tokens are these.
pub fn told(alloc: Global, text: &[u8], tokens: &[CutToken], departure: Departure) -> CTextFault
    requires { map (word_in text.now) tokens.now ≡ words_of text.now }
    ensures { IfSome (departure_of result)
        (λ told. IsSomeAnd (fault_of departure) (λ fault. told ≡ placed text.now fault)) }
{
    match departure {
        Departure::Syntax(number) => CTextFault::Syntax(place_told(text, tokens, number)),
        Departure::Number(number) => {
            CTextFault::Number(place_of_span(text, span_at(text, tokens, number)))
        }
        Departure::OutOfProfile(number) => { outside(alloc, text, span_at(text, tokens, number)) }
        Departure::Limit(which, count) => CTextFault::Limit(which, count),
        Departure::Memory => CTextFault::Memory,
    }
}
