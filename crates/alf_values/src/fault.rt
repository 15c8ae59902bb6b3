//! Why a store is refused.

use alf_ops::RunFault;
use std::fmt::{self, Debug, Formatter, Write};
use thiserror::Error;

/// Why a store is refused. It leaves the frames as they were.
#[derive(Drop, PartialEq, Error)]
pub enum ValueFault {
    /// The run ends with this fault: the address is no pointer, or its frame is not active, or the
    /// cell does not lie in it.
    #[error("the run ends with a fault")]
    Run(RunFault),
    /// Memory ran out. No call gives it yet.
    #[error("memory ran out")]
    Memory,
}

impl Debug for ValueFault {
    fn fmt<W: Write>(&self, f: &mut Formatter<W>) -> Result<(), fmt::Error> {
        write!(f, "{self}")
    }
}
