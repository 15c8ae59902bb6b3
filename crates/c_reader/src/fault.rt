//! Where a text departs from the grammar first.

ghost use Rattle.std.specs.Prelude.{◌≡◌, Some};
ghost use Rattle.c_reader.specs.declared.fault.Departure.TheVariants.{Memory};
ghost use Rattle.c_grammar.specs.Tokens.{misfit};
ghost use Rattle.c_reader.specs.Reading.{fault_of, seen};

use crate::tokens::Token;
use c_grammar::{Others, Symbol, goes_with};
use flow_base::Which;
use std::alloc::{AllocError, AllocFailed};

/// Where a text departs, as the reader finds it: a place is the number of a token, or none at the end
/// of the text.
#[derive(Debug, Drop)]
pub enum Departure {
    Syntax(Option<u32>),
    Number(u32),
    OutOfProfile(u32),
    Limit(Which, u64),
    Memory,
}

impl From<AllocError> for Departure {
    ghost from_gives = { λ _ e. e ≡ Memory };

    fn from(_e: AllocError) -> Self {
        Departure::Memory
    }
}

impl<T: Drop> From<AllocFailed<T>> for Departure {
    ghost from_gives = { λ _ e. e ≡ Memory };

    fn from(_e: AllocFailed<T>) -> Self {
        Departure::Memory
    }
}

/// The departure of a token that does not fit, where these others might stand.
pub fn misfit(token: &Token<'_>, others: Others) -> Departure
    ensures { fault_of result ≡ Some (misfit others (seen token.now)) }
{
    match token.symbol {
        Symbol::TooLarge => Departure::Number(token.number),
        Symbol::Unplaced => Departure::OutOfProfile(token.number),
        _ => {
            if goes_with(others, token.symbol) {
                Departure::OutOfProfile(token.number)
            } else {
                Departure::Syntax(Some(token.number))
            }
        }
    }
}
