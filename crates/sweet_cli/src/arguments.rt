//! The top of the program, from its arguments to its exit code.

ghost use Rattle.std.specs.Prelude.{◌≡◌, IfOk, IfErr};
ghost use Rattle.command_plans.specs.declared.status.Status.{Status};
ghost use Rattle.command_plans.specs.Code.{code_of};
ghost use Rattle.sweet_cli.specs.Top.{IsRun, IsUnreadCode, words_of};

use crate::top::run;
use command_plans::Status;
use flow_base::{Shelf, Sink};
use std::alloc::Global;
use std::io::{self, ErrorKind};

// An argument is not UTF-8.
const NO_TEXT: u8 = 8;

/// Answers the arguments of a program, of which the first is its name, as `run` does its words, and gives the exit code.
///
/// It is that of the status, 7 where the arguments found no memory, and 8 where one of them is not UTF-8.
pub fn run_arguments<F: Shelf, W: Sink>(
    alloc: Global,
    arguments: io::Result<Vec<String>>,
    shelf: &mut F,
    out: &mut W,
) -> u8
    ensures run { IfOk arguments (λ told. (status : Status) × (result ≡ code_of status)
        × IsRun (words_of told.items) status (F.state shelf.old) (F.state shelf.new) (W.state out.old)
        (W.state out.new)) }
    ensures unread { IfErr arguments (λ why. IsUnreadCode why result
        × (F.state shelf.new ≡ F.state shelf.old) × (W.state out.new ≡ W.state out.old)) }
{
    match arguments {
        Ok(told) => status_of(alloc, &told, shelf, out).code(),
        Err(why) => match why.kind() {
            ErrorKind::OutOfMemory => Status::Memory.code(),
            _ => NO_TEXT,
        },
    }
}

// The status of a run with these arguments.
fn status_of<F: Shelf, W: Sink>(
    alloc: Global,
    arguments: &[String],
    shelf: &mut F,
    out: &mut W,
) -> Status
    ensures { IsRun (words_of arguments.now) result (F.state shelf.old) (F.state shelf.new) (W.state out.old)
        (W.state out.new) }
{
    match arguments.split_first() {
        Some((_name, words)) => run(alloc, words, shelf, out),
        None => run(alloc, arguments, shelf, out),
    }
}
