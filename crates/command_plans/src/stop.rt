//! Why work stops, and the line that tells it.

ghost use Rattle.std.specs.Prelude.{◌≡◌};
ghost use Rattle.command_plans.specs.Outcome.{cause_of, status_of, IsStop};
ghost use Rattle.command_plans.specs.declared.stop.Stop.TheVariants.{Memory};

use crate::Status;
use std::alloc::{AllocError, Global};

/// Why work stops. A failed write and want of memory are no reasons of this kind.
#[derive(Debug, Drop)]
pub enum Why {
    /// The words are no command.
    Usage,
    /// What was read is refused.
    Source,
    /// What was read is refused, and the line gives one example of several.
    Example,
    /// A run has more turns than are given.
    Unbounded,
    /// What was asked does not hold.
    No,
    /// The read of the file of this name failed.
    Unread(Vec<u8>),
}

impl Why {
    /// The status that tells it. Takes no memory.
    pub fn status(&self) -> Status
        ensures { result ≡ status_of (cause_of self.now) }
    {
        match self {
            Why::Usage => Status::Usage,
            Why::Source => Status::Source,
            Why::Example => Status::Source,
            Why::Unbounded => Status::Unbounded,
            Why::No => Status::No,
            Why::Unread(_) => Status::ReadFailed,
        }
    }
}

/// Why work gave no value.
#[derive(Debug, Drop)]
pub enum Stop {
    /// It stopped for this reason, which this line tells.
    Told(Why, Vec<u8>),
    /// Memory ran out.
    Memory,
}

impl From<AllocError> for Stop {
    ghost from_gives = { λ _ e. e ≡ Memory };

    fn from(_error: AllocError) -> Self {
        Stop::Memory
    }
}

/// A stop with this line, or want of memory.
pub fn stopped(alloc: Global, why: Why, line: &str) -> Stop
    ensures { IsStop result (record { cause = cause_of why; text = line.now }) }
{
    match Vec::from_slice(alloc, line.as_bytes()) {
        Ok(text) => Stop::Told(why, text),
        Err(_) => Stop::Memory,
    }
}
