//! Where character constants and string literals end.

ghost use Rattle.std.specs.Prelude.{◌≡◌, ◌≤◌, length, IfSome};
ghost use Rattle.c_tokens.specs.Ends.{start_of, closes_literal, after_byte, after_backslash, one_digit_less};
ghost use Rattle.c_tokens.specs.Ends.{goes_on_in_literal, literal_end};

use crate::bytes::among;

/// What the bytes before a place of a literal leave open.
#[derive(Clone, Copy)]
pub enum Inside {
    /// The quote of a character constant was the last byte, and a character is due.
    First,
    /// Nothing is due.
    Within,
    /// A backslash was the last byte.
    Escape,
    /// So many hexadecimal digits of an escape are due.
    Digits(u8),
}

fn start_of(quote: u8) -> Inside
    ensures { result ≡ start_of quote }
{
    if quote == b'\'' {
        Inside::First
    } else {
        Inside::Within
    }
}

fn closes(quote: u8, inside: Inside, byte: u8) -> bool
    ensures { result ≡ closes_literal quote inside byte }
{
    match inside {
        Inside::Within => byte == quote,
        _ => false,
    }
}

fn after_byte(byte: u8) -> Option<Inside>
    ensures { result ≡ after_byte byte }
{
    if byte == b'\n' {
        None
    } else if byte == b'\\' {
        Some(Inside::Escape)
    } else {
        Some(Inside::Within)
    }
}

fn after_backslash(byte: u8) -> Option<Inside>
    ensures { result ≡ after_backslash byte }
{
    if among(byte, b"\"'?\\abfnrtv01234567") {
        Some(Inside::Within)
    } else if byte == b'x' {
        Some(Inside::Digits(1))
    } else if byte == b'u' {
        Some(Inside::Digits(4))
    } else if byte == b'U' {
        Some(Inside::Digits(8))
    } else {
        None
    }
}

fn one_digit_less(due: u8) -> Inside
    ensures { result ≡ one_digit_less due }
{
    if due <= 1 {
        Inside::Within
    } else {
        Inside::Digits(due - 1)
    }
}

fn goes_on(quote: u8, inside: Inside, byte: u8) -> Option<Inside>
    ensures { result ≡ goes_on_in_literal quote inside byte }
{
    match inside {
        Inside::First => {
            if byte == quote {
                None
            } else {
                after_byte(byte)
            }
        }
        Inside::Within => after_byte(byte),
        Inside::Escape => after_backslash(byte),
        Inside::Digits(due) => {
            if byte.is_ascii_hexdigit() {
                Some(one_digit_less(due))
            } else {
                None
            }
        }
    }
}

/// How many bytes there are up to the quote that closes a literal, after the one that opens it.
pub fn literal_end(quote: u8, bytes: &[u8]) -> Option<usize>
    ensures place { result ≡ literal_end quote bytes.now }
    ensures within { IfSome result (λ len. len ≤ length bytes.now) }
{
    let mut inside = start_of(quote);
    let mut len = 0;
    let mut rest = bytes;
    while let Some((byte, others)) = rest.split_first() {
        len += 1;
        if closes(quote, inside, *byte) {
            return Some(len);
        }
        match goes_on(quote, inside, *byte) {
            Some(next) => inside = next,
            None => return None,
        }
        rest = others;
    }
    None
}
