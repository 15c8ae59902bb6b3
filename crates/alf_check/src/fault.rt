//! Why a program does not pass.

use flow_base::Name;
use std::fmt::{self, Debug, Formatter, Write};
use thiserror::Error;

/// Why a program does not pass the checks: the first that is wrong.
///
/// Names and sizes are judged in the order of the text. Recursion and the root come after them.
#[derive(Drop, Error)]
pub enum CheckFault {
    /// Nothing of this name stands where it is looked for.
    #[error("a name stands for nothing")]
    UnknownName(Name),
    /// The name stands twice. Where two targets of a switch have one number, it is the number's
    /// unsigned digits.
    #[error("a name stands twice")]
    DuplicateName(Name),
    /// A size rule is broken: at the item of this number of the function of this name, where items
    /// are counted from 0 and labels count too; or, with no number, at the frame of this name that is
    /// exported or holds a number at first.
    #[error("a size rule is broken")]
    Size(Name, Option<u32>),
    /// Calls lead from a function back to it: its name, the names of those that the calls go
    /// through, and its name again. It is the first such function in the text.
    #[error("calls lead from a function back to it")]
    Recursion(Vec<Name>),
    /// No function has this name, which is that of the function to start with.
    #[error("there is no function to start with")]
    Root(Name),
    /// Memory ran out.
    #[error("memory ran out")]
    Memory,
}

impl Debug for CheckFault {
    fn fmt<W: Write>(&self, f: &mut Formatter<W>) -> Result<(), fmt::Error> {
        write!(f, "{self}")
    }
}
