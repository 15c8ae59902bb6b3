//! Words to a command: `clap` reads them, and its matches are taken apart.
ghost use Rattle.std.specs.Prelude.{◌≡◌, ◌≢◌, map, None, Some, Err, IfOk, IfSome, option_map, string_bytes};
ghost use Rattle.clap.specs.Words.{app_of, kind_of, subcommand_rows_of};
ghost use Rattle.sweet_words.specs.Commands.{IsWithinRanges, command_of};
ghost use Rattle.sweet_words.specs.Matched.{command_from};
ghost use Rattle.sweet_words.specs.Meant.{command_meant};
ghost use Rattle.sweet_words.specs.Shapes.{program as the_program};

use crate::command::{Command, named};
use crate::forms::FORMS;
use crate::program::program;
use clap::error::ErrorKind;
use clap::{ArgMatches, Error};
use std::alloc::{AllocError, Global};

/// Why words are not read.
#[derive(Clone, Copy, Debug, PartialEq, Eq)]
pub enum WordsFault {
    /// The words are no command.
    Usage,
    /// Memory ran out.
    Memory,
}

/// The command of the words, which stand after the program's name.
///
/// The texts of a command are those of the words: nothing is copied. `clap` is asked first, whether
/// it takes the words, and then the values: the file, then the number. Each of these gives `Usage`.
/// Takes memory for `clap`'s command and its matches, and holds none of it after.
pub fn read(alloc: Global, words: &[String]) -> Result<Command<'_>, WordsFault>
    ensures command { IfOk result (λ command. command_of (map string_bytes words.now) ≡ Some (command_meant command)) }
    // The conditions of an exploration in so many turns, of such a cache and of so many splits.
    ensures ranges { IfOk result (λ command. IsWithinRanges (command_meant command)) }
    ensures usage { result ≡ Err WordsFault.Usage → command_of (map string_bytes words.now) ≡ None }
{
    let Ok(reader) = reader(alloc) else {
        return Err(WordsFault::Memory);
    };
    match reader.try_get_matches_from(words) {
        Ok(matches) => command_in(&matches).ok_or(WordsFault::Usage),
        Err(error) => Err(fault_of(&error)),
    }
}

// The command of `clap` that reads the words.
fn reader<'a>(alloc: Global) -> Result<clap::Command<'a>, AllocError>
    ensures { IfOk result (λ c. app_of c ≡ the_program) }
{
    program(alloc, FORMS.as_slice())
}

// The command that the matches make.
fn command_in<'a>(matches: &ArgMatches<'a>) -> Option<Command<'a>>
    ensures command { option_map command_meant result ≡ command_from (subcommand_rows_of matches.now) }
    ensures ranges { IfSome result (λ command. IsWithinRanges (command_meant command)) }
{
    let (name, given) = matches.subcommand()?;
    named(name, given)
}

// Why `clap` gave no matches.
fn fault_of(error: &Error) -> WordsFault
    ensures { result ≡ WordsFault.Usage → kind_of error.now ≢ ErrorKind.OutOfMemory }
{
    match error.kind() {
        ErrorKind::OutOfMemory => WordsFault::Memory,
        _ => WordsFault::Usage,
    }
}
