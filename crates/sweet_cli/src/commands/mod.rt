//! The commands, and the answer to the words. A further command is one more row.

ghost use Rattle.std.specs.Prelude.{◌≡◌, map, string_bytes, IfOk, IfSome};
ghost use Rattle.command_plans.specs.Run.{Answers, ending_of};
ghost use Rattle.command_plans.specs.Lines.{TellsInALine};
ghost use Rattle.command_plans.specs.Outcome.{IsStop};
ghost use Rattle.command_plans.specs.Works.{Works};
ghost use Rattle.sweet_cli.specs.Words.{IsWithinRanges, command_meant, file_meant};
ghost use Rattle.sweet_cli.specs.Table.{print_task, task_for, task_of};
ghost use Rattle.sweet_cli.specs.Task.{IsPromised, KeepsOverRead, KeepsPromise, no_outcome};

// A run that is counted.
mod counting;

// The commands.
mod analyse;
mod cache;
mod check;
mod generate;
mod lower;
mod migrate;
mod print;
mod print_c;
mod replay;
mod run;
mod tasks;
mod worst;

use crate::words::{Command, ProgramFile, WordsFault, read};
use command_plans::{Answer, Stop, Why, stopped};
use flow_base::Shelf;
use std::alloc::Global;

/// The answer to the words. None where memory ran out.
pub fn words_answer<F: Shelf>(alloc: Global, words: &[String], shelf: &mut F) -> Option<Answer>
    ensures due { IfSome result
        (λ answer. Answers (task_of (map string_bytes words.now)).work (F.state shelf.old) (ending_of answer)
        (F.state shelf.new)) }
    ensures promise { IfSome result
        (λ answer. IfSome (F.state shelf.old).files
        (λ files. KeepsPromise (task_of (map string_bytes words.now)) files (ending_of answer))) }
    ensures over { IfSome result
        (λ answer. KeepsOverRead (task_of (map string_bytes words.now)) (F.state shelf.old) (F.state shelf.new)
        (ending_of answer)) }
    ensures line { IfSome result (λ answer. TellsInALine (ending_of answer)) }
    ensures same_files { (F.state shelf.new).files ≡ (F.state shelf.old).files }
{
    let answer = match words_text(alloc, words, shelf) {
        Ok(text) => Answer::Finished(text),
        Err(Stop::Told(why, text)) => Answer::Stopped(why, text),
        Err(Stop::Memory) => return None,
    };
    // The names that a refusal tells have no line feed: that is looked at here, where it is not proved of them.
    if answer.is_told_in_a_line() {
        Some(answer)
    } else {
        None
    }
}

// The text of the words' command.
fn words_text<F: Shelf>(alloc: Global, words: &[String], shelf: &mut F) -> Result<Vec<u8>, Stop>
    ensures work { Works (task_of (map string_bytes words.now)).work (λ text. text.items) (F.state shelf.old) result
        (F.state shelf.new) }
    ensures promise { IfOk result
        (λ text. IsPromised (task_of (map string_bytes words.now)) (F.state shelf.old) (F.state shelf.new) text.items) }
{
    match read(alloc, words) {
        Ok(command) => command_text(alloc, command, shelf),
        Err(WordsFault::Usage) => Err(no_command(alloc)),
        Err(WordsFault::Memory) => Err(Stop::Memory),
    }
}

// The words are no command.
fn no_command(alloc: Global) -> Stop
    ensures { IsStop result no_outcome }
{
    stopped(alloc, Why::Usage, "fault usage\n")
}

// The text of a command.
fn command_text<F: Shelf>(
    alloc: Global,
    command: Command<'_>,
    shelf: &mut F,
) -> Result<Vec<u8>, Stop>
    requires ranges { IsWithinRanges (command_meant command) }
    ensures work { Works (task_for (command_meant command.entry)).work (λ text. text.items) (F.state shelf.old) result
        (F.state shelf.new) }
    ensures promise { IfOk result
        (λ text. IsPromised (task_for (command_meant command.entry)) (F.state shelf.old) (F.state shelf.new)
        text.items) }
{
    match command {
        Command::Analyse(given) => analyse::analyse(alloc, given, shelf),
        Command::Check(given) => check::check(alloc, given, shelf),
        Command::Replay(given) => replay::replay(alloc, given, shelf),
        Command::Lower(given) => lower::lower(alloc, given, shelf),
        Command::Print(program) => print_text(alloc, program, shelf),
        Command::Run(given) => run::run(alloc, given, shelf),
        Command::Generate(number) => generate::generate(alloc, number),
        Command::Migrate(report) => migrate::migrate(alloc, report, shelf),
        Command::Cache(given) => cache::cache(alloc, given, shelf),
        Command::Tasks(file) => tasks::tasks(alloc, file, shelf),
        Command::Worst(given) => worst::worst(alloc, given, shelf),
    }
}

// The canonical text of a file, by its language.
fn print_text<F: Shelf>(
    alloc: Global,
    program: ProgramFile<'_>,
    shelf: &mut F,
) -> Result<Vec<u8>, Stop>
    ensures work { Works (print_task (file_meant program.entry)).work (λ text. text.items) (F.state shelf.old) result
        (F.state shelf.new) }
    ensures promise { IfOk result
        (λ text. IsPromised (print_task (file_meant program.entry)) (F.state shelf.old) (F.state shelf.new)
        text.items) }
{
    match program {
        ProgramFile::Alf(file) => print::print(alloc, file, shelf),
        ProgramFile::C(file) => print_c::print_c(alloc, file, shelf),
    }
}
