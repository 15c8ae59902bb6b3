//! The answer of a tool, before it is written.

ghost use Rattle.std.specs.Prelude.{◌≡◌, ◌↔◌, IsTrue};
ghost use Rattle.command_plans.specs.Outcome.{ending_status, ending_text};
ghost use Rattle.command_plans.specs.Lines.{TellsInALine};
ghost use Rattle.command_plans.specs.Run.{ending_of};

use crate::Status;
use crate::line::is_line;
use crate::stop::Why;

/// A text, or why there is none and the line that tells it.
#[derive(Debug, Drop)]
pub enum Answer {
    /// The work is done, and this is its text.
    Finished(Vec<u8>),
    /// It stopped for this reason, which this line tells.
    Stopped(Why, Vec<u8>),
}

impl Answer {
    /// The status that tells it. Takes no memory.
    pub fn status(&self) -> Status
        ensures { result ≡ ending_status (ending_of self.now) }
    {
        match self {
            Answer::Finished(_) => Status::Done,
            Answer::Stopped(why, _) => why.status(),
        }
    }

    /// Whether a stop is told in one line. Takes no memory.
    pub fn is_told_in_a_line(&self) -> bool
        ensures { IsTrue result ↔ TellsInALine (ending_of self.now) }
    {
        match self {
            Answer::Finished(_) => true,
            Answer::Stopped(_, text) => is_line(text),
        }
    }

    /// The text that is to be written. Takes no memory.
    pub fn text(&self) -> &[u8]
        ensures { result.now ≡ ending_text (ending_of self.now) }
    {
        match self {
            Answer::Finished(text) => text,
            Answer::Stopped(_, text) => text,
        }
    }
}
