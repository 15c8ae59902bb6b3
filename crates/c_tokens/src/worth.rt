ghost use Rattle.std.specs.Prelude.{◌≡◌};
ghost use Rattle.c_tokens.specs.Worth.{worth_of};

use crate::characters::character_worth;
use crate::constant_numbers::number_worth;
use crate::token::Kind;

/// What a token is worth as a constant.
#[derive(Clone, Copy, Debug, PartialEq, Eq)]
pub enum Worth {
    /// The token is no constant.
    NoConstant,
    /// The number has more than its type can hold.
    TooLarge,
    /// An `int`.
    Int(u32),
    /// An `unsigned int`.
    UnsignedInt(u32),
}

/// What a token of this kind and text is worth. Takes no memory, and goes over the text once.
pub fn worth_of(kind: Kind, text: &[u8]) -> Worth
    ensures { result ≡ worth_of kind text.now }
{
    match kind {
        Kind::Number => number_worth(text),
        Kind::Character => character_worth(text),
        _ => Worth::NoConstant,
    }
}
