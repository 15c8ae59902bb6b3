//! How a tool ends.

ghost use Rattle.std.specs.Prelude.{◌≡◌};
ghost use Rattle.command_plans.specs.Code.{code_of};

/// How a tool ends.
#[derive(Clone, Copy, Debug, PartialEq, Eq)]
pub enum Status {
    /// The command's own text was written.
    Done,
    /// The words are no command.
    Usage,
    /// What was read is refused, and the line tells why.
    Source,
    /// A run has more turns than are given.
    Unbounded,
    /// What was asked does not hold.
    No,
    /// The read of a file failed, and the line tells what it was for.
    ReadFailed,
    /// The write failed after a prefix of the text.
    WriteFailed,
    /// Memory ran out, and nothing was written.
    Memory,
}

impl Status {
    /// The exit code. Takes no memory.
    pub fn code(&self) -> u8
        ensures { result ≡ code_of self.now }
    {
        match self {
            Status::Done => 0,
            Status::Usage => 1,
            Status::Source => 2,
            Status::Unbounded => 3,
            Status::No => 4,
            Status::ReadFailed => 5,
            Status::WriteFailed => 6,
            Status::Memory => 7,
        }
    }
}
