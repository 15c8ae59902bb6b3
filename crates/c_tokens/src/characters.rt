ghost use Rattle.std.specs.Prelude.{◌≡◌};
ghost use Rattle.c_tokens.specs.Worth.{plain_character, escaped_character, character_worth};

use crate::worth::Worth;

fn plain_character(byte: u8) -> Worth
    ensures { result ≡ plain_character byte }
{
    if b' ' <= byte && byte <= b'~' && byte != b'\'' && byte != b'\\' {
        Worth::Int(u32::from(byte))
    } else {
        Worth::NoConstant
    }
}

fn escaped_character(byte: u8) -> Worth
    ensures { result ≡ escaped_character byte }
{
    if byte == b'n' {
        Worth::Int(10)
    } else if byte == b't' {
        Worth::Int(9)
    } else if byte == b'0' {
        Worth::Int(0)
    } else if byte == b'\\' || byte == b'\'' {
        Worth::Int(u32::from(byte))
    } else {
        Worth::NoConstant
    }
}

/// What a character constant is worth.
pub fn character_worth(text: &[u8]) -> Worth
    ensures { result ≡ character_worth text.now }
{
    match text {
        [first, byte, last] => {
            if *first == b'\'' && *last == b'\'' {
                plain_character(*byte)
            } else {
                Worth::NoConstant
            }
        }
        [first, slash, byte, last] => {
            if *first == b'\'' && *slash == b'\\' && *last == b'\'' {
                escaped_character(*byte)
            } else {
                Worth::NoConstant
            }
        }
        _ => Worth::NoConstant,
    }
}
