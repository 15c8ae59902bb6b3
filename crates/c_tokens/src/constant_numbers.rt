//! Numbers, read digit by digit. One that is too large is not read further than that.

ghost use Rattle.std.specs.Prelude.{◌≡◌, ◌≤◌, ◌<◌, ◌*◌, ◌+◌, IfSome};
ghost use Rattle.c_tokens.specs.Worth.{digit_of, digit_in, is_last, unsigned_worth, plain_worth, judge, number_from};
ghost use Rattle.c_tokens.specs.Worth.{zero_worth, number_worth};

use crate::worth::Worth;

const MOST_INT: u64 = 2_147_483_647;

const MOST_UNSIGNED: u64 = 4_294_967_295;

fn digit_of(byte: u8) -> Option<u64>
    ensures value { result ≡ digit_of byte }
    ensures small { IfSome result (λ digit. digit < 16) }
{
    if b'0' <= byte && byte <= b'9' {
        Some(u64::from(byte - b'0'))
    } else if b'a' <= byte && byte <= b'f' {
        Some(u64::from(byte - b'a') + 10)
    } else if b'A' <= byte && byte <= b'F' {
        Some(u64::from(byte - b'A') + 10)
    } else {
        None
    }
}

fn digit_in(base: u64, byte: u8) -> Option<u64>
    ensures value { result ≡ digit_in base byte }
    ensures small { IfSome result (λ digit. digit < 16) }
{
    match digit_of(byte) {
        Some(digit) => { if digit < base { Some(digit) } else { None } }
        None => None,
    }
}

// Whether a `u` is the last byte.
fn is_last(byte: u8, rest: &[u8]) -> bool
    ensures { result ≡ is_last byte rest.now }
{
    match rest {
        [] => byte == b'u' || byte == b'U',
        _ => false,
    }
}

fn unsigned_worth(number: u64) -> Worth
    ensures { result ≡ unsigned_worth number }
{
    if number <= MOST_UNSIGNED {
        Worth::UnsignedInt(number as u32)
    } else {
        Worth::TooLarge
    }
}

fn plain_worth(decimal: bool, number: u64) -> Worth
    ensures { result ≡ plain_worth decimal number }
{
    if number <= MOST_INT {
        Worth::Int(number as u32)
    } else if decimal {
        Worth::TooLarge
    } else {
        unsigned_worth(number)
    }
}

// One more digit, as long as the number is not too large.
fn with_digit(base: u64, number: u64, digit: u64) -> u64
    requires base { base ≤ 16 }
    requires digit { digit < 16 }
    requires number { number ≤ 68719476735 }
    ensures value { number ≤ 4294967295 → result ≡ number * base + digit }
    ensures large { 4294967295 < number → result ≡ number }
    ensures within { result ≤ 68719476735 }
{
    if number <= MOST_UNSIGNED {
        number * base + digit
    } else {
        number
    }
}

// What digits of this base are worth. `some` says that a digit stands before them.
fn digits_worth(base: u64, some: bool, text: &[u8]) -> Worth
    requires least { 2 ≤ base }
    requires most { base ≤ 16 }
    ensures { result ≡ judge base (number_from base some 0 text.now) }
{
    let mut some = some;
    let mut number = 0;
    let mut rest = text;
    while let Some((byte, others)) = rest.split_first() {
        let Some(digit) = digit_in(base, *byte) else {
            if some && is_last(*byte, others) {
                return unsigned_worth(number);
            }
            return Worth::NoConstant;
        };
        number = with_digit(base, number, digit);
        some = true;
        rest = others;
    }
    if some {
        plain_worth(base == 10, number)
    } else {
        Worth::NoConstant
    }
}

// What stands after a 0.
fn zero_worth(bytes: &[u8]) -> Worth
    ensures { result ≡ zero_worth bytes.now }
{
    match bytes {
        [] => Worth::Int(0),
        [first, rest @ ..] => {
            if *first == b'x' || *first == b'X' {
                digits_worth(16, false, rest)
            } else {
                digits_worth(8, true, bytes)
            }
        }
    }
}

/// What a number is worth.
pub fn number_worth(text: &[u8]) -> Worth
    ensures { result ≡ number_worth text.now }
{
    match text {
        [] => Worth::NoConstant,
        [first, rest @ ..] => {
            if *first == b'0' {
                zero_worth(rest)
            } else {
                digits_worth(10, false, text)
            }
        }
    }
}
