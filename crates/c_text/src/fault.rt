use flow_base::{Name, Place, Which};
use thiserror::Error;

/// Where a text departs from the grammar first, or want of memory.
#[derive(Debug, Drop, Error)]
pub enum CTextFault {
    /// The token that begins here does not fit, or the text ends here.
    #[error("a token that does not fit")]
    Syntax(Place),
    /// The number that begins here is too large.
    #[error("a number that is too large")]
    Number(Place),
    /// This token, which begins here, is outside the profile. Its bytes are told as they stand.
    #[error("a token outside the profile")]
    OutOfProfile(Place, Name),
    /// The quantity passes its limit; the number is the limit plus one.
    #[error("a quantity past its limit")]
    Limit(Which, u64),
    /// Memory ran out.
    #[error("out of memory")]
    Memory,
}
