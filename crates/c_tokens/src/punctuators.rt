ghost use Rattle.std.specs.Prelude.{◌≡◌};
ghost use Rattle.c_tokens.specs.Punctuators.{is_single, is_pair, is_triple, is_quadruple};
ghost use Rattle.c_tokens.specs.Cutting.{begins_triple, begins_quadruple};

use crate::bytes::among;

pub fn is_single(byte: u8) -> bool
    ensures { result ≡ is_single byte }
{
    among(byte, b"[](){}.&*+-~!/%<>^|?:;=,#")
}

pub fn is_pair(first: u8, second: u8) -> bool
    ensures { result ≡ is_pair first second }
{
    (second == b'=' && among(first, b"<>=!*/%+-&^|"))
        || (among(second, b"+-<>&|#") && second == first)
        || (second == b'>' && among(first, b"-:%"))
        || (second == b':' && among(first, b"<%"))
        || (second == b'%' && first == b'<')
}

fn is_triple(first: u8, second: u8, third: u8) -> bool
    ensures { result ≡ is_triple first second third }
{
    (third == b'.' && second == b'.' && first == b'.')
        || (third == b'=' && second == b'<' && first == b'<')
        || (third == b'=' && second == b'>' && first == b'>')
}

fn is_quadruple(first: u8, second: u8, third: u8, fourth: u8) -> bool
    ensures { result ≡ is_quadruple first second third fourth }
{
    fourth == b':' && third == b'%' && second == b':' && first == b'%'
}

/// Whether the bytes, with what stands after them, begin with a punctuator of three bytes.
pub fn begins_triple(first: u8, second: u8, rest: &[u8]) -> bool
    ensures { result ≡ begins_triple first second rest.now }
{
    match rest {
        [third, ..] => is_triple(first, second, *third),
        [] => false,
    }
}

/// Whether the bytes, with what stands after them, begin with a punctuator of four bytes.
pub fn begins_quadruple(first: u8, second: u8, rest: &[u8]) -> bool
    ensures { result ≡ begins_quadruple first second rest.now }
{
    match rest {
        [third, fourth, ..] => is_quadruple(first, second, *third, *fourth),
        _ => false,
    }
}
