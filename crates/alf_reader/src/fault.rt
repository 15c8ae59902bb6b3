ghost use Rattle.std.specs.Prelude.{◌≡◌, Some};
ghost use Rattle.alf_tokens.specs.Ahead.{lexeme};
ghost use Rattle.alf_reader.specs.declared.fault.FaultAt.TheVariants.{Memory};
ghost use Rattle.alf_reader.specs.Grammar.{misfit, outside};
ghost use Rattle.alf_reader.specs.Reading.{fault_of};

use alf_tokens::{Kind, Token};
use flow_base::{Name, Place, Which};
use std::alloc::{AllocError, AllocFailed};
use thiserror::Error;

/// Where a text departs from the grammar first, or want of memory.
///
/// A place is of type `P`, and a word of type `W`.
#[derive(Debug, Drop, Error)]
pub enum FaultAt<P, W> {
    /// The token that begins here does not fit, or no token begins here.
    #[error("a token that does not fit")]
    Syntax(P),
    /// The number that begins here is outside its range.
    #[error("a number outside its range")]
    Number(P),
    /// This word or number, which begins here, is none of those that the profile has at its place.
    #[error("a word or number outside the profile")]
    OutOfProfile(P, W),
    /// The quantity passes its limit; the number is the limit plus one.
    #[error("a quantity past its limit")]
    Limit(Which, u64),
    /// Memory ran out.
    #[error("out of memory")]
    Memory,
}

/// Where a text departs, as it is told.
pub type TextFault = FaultAt<Place, Name>;

/// Where a text departs, as the reader finds it: a place is how many bytes of the text are left there.
pub type Departure<'a> = FaultAt<usize, &'a [u8]>;

impl<P, W> From<AllocError> for FaultAt<P, W> {
    ghost from_gives = { λ _ e. e ≡ Memory };

    fn from(_e: AllocError) -> Self {
        FaultAt::Memory
    }
}

impl<P, W, T: Drop> From<AllocFailed<T>> for FaultAt<P, W> {
    ghost from_gives = { λ _ e. e ≡ Memory };

    fn from(_e: AllocFailed<T>) -> Self {
        FaultAt::Memory
    }
}

/// The departure of a token of another kind than its place wants.
pub fn misfit(token: Token<'_>) -> Departure<'_>
    ensures { fault_of result ≡ Some (misfit (lexeme token.entry)) }
{
    match token.kind {
        Kind::Long => Departure::Number(token.left),
        _ => Departure::Syntax(token.left),
    }
}

/// The departure of a word or a number that the grammar has not at its place.
pub fn outside(token: Token<'_>) -> Departure<'_>
    ensures { fault_of result ≡ Some (outside (lexeme token.entry)) }
{
    Departure::OutOfProfile(token.left, token.text)
}
