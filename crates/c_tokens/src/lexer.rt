//! The longest piece that some bytes begin with.

ghost use Rattle.std.specs.Prelude.{◌≡◌, ◌+◌, ◌<◌, ◌^◌, length};
ghost use Rattle.std.specs.List.{prefix_len};
ghost use Rattle.c_tokens.specs.Bytes.{in_line};
ghost use Rattle.c_tokens.specs.Ends.{comment_end, literal_end};
ghost use Rattle.c_tokens.specs.Kinds.{kind_of_one, literal_kind, opens_comment, opens_line_comment, is_wide};
ghost use Rattle.c_tokens.specs.Cutting.{comment_piece, wide_piece, quoted_piece, symbol_piece, cut_piece};

use crate::bytes::{is_blank, is_letter, is_quote, line_len, word_len};
use crate::comments::comment_end;
use crate::literals::literal_end;
use crate::numbers::{number_len, starts_number};
use crate::punctuators::{begins_quadruple, begins_triple, is_pair, is_single};
use crate::token::Kind;

fn kind_of_one(byte: u8) -> Kind
    ensures { result ≡ kind_of_one byte }
{
    if is_blank(byte) {
        Kind::White
    } else if is_letter(byte) {
        Kind::Identifier
    } else if byte.is_ascii_digit() {
        Kind::Number
    } else if is_quote(byte) {
        Kind::OpenLiteral
    } else if is_single(byte) {
        Kind::Punctuator
    } else {
        Kind::Other
    }
}

fn literal_kind(quote: u8) -> Kind
    ensures { result ≡ literal_kind quote }
{
    if quote == b'\'' {
        Kind::Character
    } else {
        Kind::StringLiteral
    }
}

fn opens_comment(first: u8, second: u8) -> bool
    ensures { result ≡ opens_comment first second }
{
    first == b'/' && second == b'*'
}

fn opens_line_comment(first: u8, second: u8) -> bool
    ensures { result ≡ opens_line_comment first second }
{
    first == b'/' && second == b'/'
}

fn is_wide(first: u8, second: u8) -> bool
    ensures { result ≡ is_wide first second }
{
    first == b'L' && is_quote(second)
}

/// The kind and the length of the longest piece that the bytes begin with.
#[tactic(auto, unfolding(crate::specs::Cutting::cut_piece))]
pub fn cut_piece(bytes: &[u8]) -> (Kind, usize)
    ensures { result ≡ cut_piece bytes.now }
{
    let [first, others @ ..] = bytes else {
        return (Kind::Other, 0);
    };
    let [second, rest @ ..] = others else {
        return (kind_of_one(*first), 1);
    };
    if is_blank(*first) {
        (Kind::White, 1)
    } else if opens_comment(*first, *second) {
        comment_piece(rest)
    } else if opens_line_comment(*first, *second) {
        (Kind::White, line_len(rest) + 2)
    } else if is_wide(*first, *second) {
        wide_piece(*second, rest)
    } else if is_letter(*first) {
        (Kind::Identifier, word_len(others) + 1)
    } else if starts_number(*first, *second) {
        (Kind::Number, number_len(others) + 1)
    } else if is_quote(*first) {
        quoted_piece(*first, others)
    } else {
        symbol_piece(*first, *second, rest)
    }
}

// A comment after its slash and star.
fn comment_piece(bytes: &[u8]) -> (Kind, usize)
    requires { length bytes.now + 2 < 2 ^ 64 }
    ensures { result ≡ comment_piece (comment_end bytes.now) (length bytes.now) }
{
    match comment_end(bytes) {
        Some(len) => (Kind::White, len + 2),
        None => (Kind::OpenComment, bytes.len() + 2),
    }
}

// A literal after L and its quote, or the name L.
fn wide_piece(quote: u8, bytes: &[u8]) -> (Kind, usize)
    requires { length bytes.now + 2 < 2 ^ 64 }
    ensures { result ≡ wide_piece quote (literal_end quote bytes.now) }
{
    match literal_end(quote, bytes) {
        Some(len) => (literal_kind(quote), len + 2),
        None => (Kind::Identifier, 1),
    }
}

// A literal after its quote. One that is not closed goes to the end of its line.
fn quoted_piece(quote: u8, bytes: &[u8]) -> (Kind, usize)
    requires { length bytes.now + 1 < 2 ^ 64 }
    ensures { result ≡ quoted_piece quote (literal_end quote bytes.now) (prefix_len in_line bytes.now) }
{
    match literal_end(quote, bytes) {
        Some(len) => (literal_kind(quote), len + 1),
        None => (Kind::OpenLiteral, line_len(bytes) + 1),
    }
}

// A punctuator, or one byte.
fn symbol_piece(first: u8, second: u8, rest: &[u8]) -> (Kind, usize)
    ensures { result ≡ symbol_piece first second rest.now }
{
    if begins_quadruple(first, second, rest) {
        (Kind::Punctuator, 4)
    } else if begins_triple(first, second, rest) {
        (Kind::Punctuator, 3)
    } else if is_pair(first, second) {
        (Kind::Punctuator, 2)
    } else {
        (kind_of_one(first), 1)
    }
}
