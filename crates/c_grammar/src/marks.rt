//! Marks: operators, brackets and the like.

ghost use Rattle.std.specs.Prelude.{◌≡◌};
ghost use Rattle.c_grammar.specs.Symbols.{operator_byte, bracket_byte, one_byte_symbol, repeated_symbol};
ghost use Rattle.c_grammar.specs.Symbols.{updated_symbol, with_equals, two_byte_symbol, three_byte_symbol, mark_symbol};

use crate::symbol::Symbol;
use c_unit::{Binary, Unary};

// The operator of one byte, if it is one.
fn operator_byte(byte: u8) -> Option<Binary>
    ensures { result ≡ operator_byte byte }
{
    match byte {
        b'*' => Some(Binary::Multiply),
        b'/' => Some(Binary::Divide),
        b'%' => Some(Binary::Remainder),
        b'+' => Some(Binary::Add),
        b'-' => Some(Binary::Subtract),
        b'<' => Some(Binary::Less),
        b'>' => Some(Binary::Greater),
        b'&' => Some(Binary::And),
        b'^' => Some(Binary::Xor),
        b'|' => Some(Binary::Or),
        _ => None,
    }
}

fn bracket_byte(byte: u8) -> Symbol
    ensures { result ≡ bracket_byte byte }
{
    match byte {
        b'(' => Symbol::OpenParen,
        b')' => Symbol::CloseParen,
        b'[' => Symbol::OpenBracket,
        b']' => Symbol::CloseBracket,
        b'{' => Symbol::OpenBrace,
        b'}' => Symbol::Closing,
        b',' => Symbol::Comma,
        b';' => Symbol::Semicolon,
        b':' => Symbol::Closing,
        b'=' => Symbol::Assign,
        b'!' => Symbol::Prefix(Unary::Not),
        b'~' => Symbol::Prefix(Unary::Complement),
        _ => Symbol::Unplaced,
    }
}

fn one_byte_symbol(byte: u8) -> Symbol
    ensures { result ≡ one_byte_symbol byte }
{
    match operator_byte(byte) {
        Some(op) => Symbol::Operator(op),
        None => bracket_byte(byte),
    }
}

// A byte that stands twice.
fn repeated_symbol(byte: u8) -> Symbol
    ensures { result ≡ repeated_symbol byte }
{
    match byte {
        b'+' => Symbol::Step(true),
        b'-' => Symbol::Step(false),
        b'<' => Symbol::Operator(Binary::ShiftLeft),
        b'>' => Symbol::Operator(Binary::ShiftRight),
        b'=' => Symbol::Operator(Binary::Equal),
        b'&' => Symbol::Operator(Binary::Both),
        b'|' => Symbol::Operator(Binary::Either),
        _ => Symbol::Unplaced,
    }
}

fn updated_symbol(op: Option<Binary>) -> Symbol
    ensures { result ≡ updated_symbol op }
{
    match op {
        Some(op) => Symbol::Update(op),
        None => Symbol::Unplaced,
    }
}

// A byte and `=`.
fn with_equals(byte: u8) -> Symbol
    ensures { result ≡ with_equals byte }
{
    match byte {
        b'<' => Symbol::Operator(Binary::AtMost),
        b'>' => Symbol::Operator(Binary::AtLeast),
        b'!' => Symbol::Operator(Binary::Unequal),
        _ => updated_symbol(operator_byte(byte)),
    }
}

fn two_byte_symbol(first: u8, second: u8) -> Symbol
    ensures { result ≡ two_byte_symbol first second }
{
    if first == second {
        repeated_symbol(first)
    } else if second == b'=' {
        with_equals(first)
    } else {
        Symbol::Unplaced
    }
}

fn three_byte_symbol(first: u8, third: u8) -> Symbol
    ensures { result ≡ three_byte_symbol first third }
{
    if first == b'<' && third == b'=' {
        Symbol::Update(Binary::ShiftLeft)
    } else if first == b'>' && third == b'=' {
        Symbol::Update(Binary::ShiftRight)
    } else {
        Symbol::Unplaced
    }
}

/// What a punctuator is.
pub fn mark_symbol(text: &[u8]) -> Symbol
    ensures { result ≡ mark_symbol text.now }
{
    match text {
        [a] => one_byte_symbol(*a),
        [a, b] => two_byte_symbol(*a, *b),
        [a, _, c] => three_byte_symbol(*a, *c),
        _ => Symbol::Unplaced,
    }
}
