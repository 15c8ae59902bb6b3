ghost use Rattle.std.specs.Prelude.{◌≡◌, ◌≤◌, length, false};
ghost use Rattle.c_tokens.specs.Numbers.{marks_exponent, goes_on, number_len, starts_number};

use crate::bytes::is_word_byte;

fn marks_exponent(byte: u8) -> bool
    ensures { result ≡ marks_exponent byte }
{
    byte == b'e' || byte == b'E' || byte == b'p' || byte == b'P'
}

fn goes_on(exponent: bool, byte: u8) -> bool
    ensures { result ≡ goes_on exponent byte }
{
    is_word_byte(byte) || byte == b'.' || (exponent && (byte == b'+' || byte == b'-'))
}

/// A digit, or a period and a digit.
pub fn starts_number(first: u8, second: u8) -> bool
    ensures { result ≡ starts_number first second }
{
    first.is_ascii_digit() || (first == b'.' && second.is_ascii_digit())
}

/// How many of the bytes a number goes on with.
pub fn number_len(bytes: &[u8]) -> usize
    ensures len { result ≡ number_len false bytes.now }
    ensures within { result ≤ length bytes.now }
{
    let mut exponent = false;
    let mut len = 0;
    let mut rest = bytes;
    while let Some((byte, others)) = rest.split_first() {
        if !goes_on(exponent, *byte) {
            return len;
        }
        exponent = marks_exponent(*byte);
        len += 1;
        rest = others;
    }
    len
}
