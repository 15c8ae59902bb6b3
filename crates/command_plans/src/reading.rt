//! A file, read in its turn.

ghost use Rattle.std.specs.Prelude.{◌≡◌};
ghost use Rattle.command_plans.specs.Outcome.{IsStop};
ghost use Rattle.command_plans.specs.Roles.{read_line, unread};
ghost use Rattle.command_plans.specs.Work.{reads};
ghost use Rattle.command_plans.specs.Works.{Works};

use crate::stop::{Stop, Why, stopped};
use flow_base::{ReadError, Shelf};
use std::alloc::Global;

/// What a file is read for.
#[derive(Clone, Copy, Debug, PartialEq, Eq)]
pub enum Role {
    /// The program.
    Program,
    /// The ranges of its inputs.
    Inputs,
    /// The costs of its blocks.
    Costs,
    /// A report of its runs.
    Report,
    /// The values of one run.
    Values,
    /// The tasks of a schedule.
    Tasks,
}

// The line of a read that failed.
fn read_line(role: Role) -> &'static str
    ensures { result.now ≡ read_line role }
{
    match role {
        Role::Program => "fault read program\n",
        Role::Inputs => "fault read inputs\n",
        Role::Costs => "fault read costs\n",
        Role::Report => "fault read report\n",
        Role::Values => "fault read values\n",
        Role::Tasks => "fault read tasks\n",
    }
}

// The stop where the read of the file has failed.
fn failed(alloc: Global, role: Role, name: &str) -> Stop
    ensures { IsStop result (unread role name.now) }
{
    let Ok(name) = Vec::from_slice(alloc, name.as_bytes()) else {
        return Stop::Memory;
    };
    stopped(alloc, Why::Unread(name), read_line(role))
}

/// The bytes of a file of at most `limit`, which is wanted for a role. `line` tells that it has more.
pub fn read_file<F: Shelf>(
    alloc: Global,
    shelf: &mut F,
    role: Role,
    name: &str,
    limit: u64,
    line: &str,
) -> Result<Vec<u8>, Stop>
    ensures { Works (reads role name.now limit line.now) (λ bytes. bytes.items) (F.state shelf.old) result
        (F.state shelf.new) }
{
    match shelf.read(alloc, name, limit) {
        Ok(bytes) => Ok(bytes),
        Err(ReadError::Failed) => Err(failed(alloc, role, name)),
        Err(ReadError::TooLong(_)) => Err(stopped(alloc, Why::Source, line)),
        Err(ReadError::Memory) => Err(Stop::Memory),
    }
}
