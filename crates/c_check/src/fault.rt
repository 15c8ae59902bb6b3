//! Why a unit does not pass.

use flow_base::{Name, Place};
use std::fmt::{self, Debug, Formatter, Write};
use thiserror::Error;

/// Why a unit does not pass the checks: the first that is wrong in the order of the text; then recursion; then the
/// root.
#[derive(Drop, Error)]
pub enum CFault {
    /// The name is not known where it stands, or is called and no function of the name is defined.
    #[error("a name that is not known")]
    UnknownName(Name),
    /// The name stands a second time in one scope, or its function is defined a second time.
    #[error("a name that stands twice")]
    Duplicate(Name),
    /// The smallest part that is wrong begins here.
    #[error("a part that does not fit")]
    Mistyped(Place),
    /// Calls lead from a function back to it: its name, the names of those that the calls go through, and its name
    /// again. It is the first such function by the order of definitions.
    #[error("calls lead from a function back to it")]
    Recursion(Vec<Name>),
    /// No function of this name, which is that of the function to start with, is defined.
    #[error("there is no function to start with")]
    Root(Name),
    /// Memory ran out.
    #[error("memory ran out")]
    Memory,
}

impl Debug for CFault {
    fn fmt<W: Write>(&self, f: &mut Formatter<W>) -> Result<(), fmt::Error> {
        write!(f, "{self}")
    }
}
