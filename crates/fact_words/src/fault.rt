ghost use Rattle.std.specs.Prelude.{◌≡◌};
ghost use Rattle.fact_words.specs.declared.fault.FaultAt.TheVariants.{Memory};

use flow_base::Place;
use std::alloc::{AllocError, AllocFailed};
use thiserror::Error;

/// Where a text departs from the grammar first, or want of memory. A place is of type `P`.
#[derive(Debug, Drop, Error)]
pub enum FaultAt<P> {
    /// The word that begins here does not fit, or a word or a line feed is missing here.
    #[error("a word that does not fit")]
    Syntax(P),
    /// The number that begins here is outside its range.
    #[error("a number outside its range")]
    Number(P),
    /// Memory ran out.
    #[error("out of memory")]
    Memory,
}

/// Where a text departs, as it is told.
pub type ReportFault = FaultAt<Place>;

/// Where a text departs, as the reader finds it: a place is how many bytes of the text are left there.
pub type Departure = FaultAt<usize>;

impl<P> From<AllocError> for FaultAt<P> {
    ghost from_gives = { λ _ e. e ≡ Memory };

    fn from(_e: AllocError) -> Self {
        FaultAt::Memory
    }
}

impl<P, T: Drop> From<AllocFailed<T>> for FaultAt<P> {
    ghost from_gives = { λ _ e. e ≡ Memory };

    fn from(_e: AllocFailed<T>) -> Self {
        FaultAt::Memory
    }
}
