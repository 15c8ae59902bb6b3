//! The top of the program: words to a status, with one text written.

ghost use Rattle.std.specs.Prelude.{◌≡◌, ◌++◌, ◌⊎◌, List, ℕ, true, Some, map, string_bytes, IfSome};
ghost use Rattle.flow_base.specs.Outside.{Rose};
ghost use Rattle.flow_base.specs.Held.{content_of};
ghost use Rattle.command_plans.specs.Lines.{is_line};
ghost use Rattle.command_plans.specs.Outcome.{Ending, ending_status, ending_text};
ghost use Rattle.command_plans.specs.Run.{Answers, IsAnswered, Wrote, CutShort, WroteNothing, IsAnswerOf};
ghost use Rattle.command_plans.specs.Works.{OverRead};
ghost use Rattle.sweet_cli.specs.Table.{task_of};
ghost use Rattle.sweet_cli.specs.Top.{IsAnswerRead};
ghost use Rattle.sweet_cli.specs.Task.{KeepsPromise, Promised};

use crate::commands::words_answer;
use command_plans::Status;
use flow_base::{Shelf, Sink, SureShelf, SureSink, WriteError};
use std::alloc::Global;

/// Answers the words: reads the files that they name, each in its turn, makes one text and writes it
/// once.
///
/// The words are judged first, then of the program's file its length, its text and its checks, then its
/// graph and scopes, then the inputs, the costs, the report and the values, then its runs. A report has at
/// most 67,108,864 bytes, and each other file 1,048,576; without `--turns` the turns are 100,000. `Memory`
/// comes where memory runs out; a read may have failed before.
pub fn run<F: Shelf, W: Sink>(alloc: Global, words: &[String], shelf: &mut F, out: &mut W) -> Status
    // One write was made, of the text of the answer, and no file was read but in its turn; this very text keeps the
    // promise of the command.
    ensures answer { IsAnswered result → (ending : Ending) × (result ≡ ending_status ending)
        × Answers (task_of (map string_bytes words.now)).work (F.state shelf.old) ending (F.state shelf.new)
        × IfSome (F.state shelf.old).files (λ files. KeepsPromise (task_of (map string_bytes words.now)) files ending)
        × Wrote (ending_text ending) (W.state out.old) (W.state out.new) }

    // After `Done` what was written keeps the promise of the command.
    ensures promised { result ≡ Status.Done
        → IfSome (F.state shelf.old).files
        (λ files. Promised (task_of (map string_bytes words.now)) files (W.state out.old) (W.state out.new)) }

    // Also where nothing tells what files hold, what was written is the answer of files that hold what was read.
    ensures answer_read { IsAnswered result → (result ≡ Status.ReadFailed → ⊥)
        → IsAnswerRead (map string_bytes words.now) result (F.state shelf.old) (F.state shelf.new) (W.state out.old)
        (W.state out.new) }

    // And after `Done` it keeps the promise of the command for files that hold what was read.
    ensures promised_read { result ≡ Status.Done → OverRead (F.state shelf.old) (F.state shelf.new)
        (task_of (map string_bytes words.now)).names (λ files. Promised (task_of (map string_bytes words.now)) files (W.state out.old) (W.state out.new)) }

    // Each answer but that of `Done` is one line.
    ensures one_line { IsAnswered result → (result ≡ Status.Done → ⊥) → (line : List ℕ) × (is_line line ≡ true)
        × Wrote line (W.state out.old) (W.state out.new) }

    // The failed read that the answer tells is the last one, and else none has failed.
    ensures no_other_read { IsAnswered result → (result ≡ Status.ReadFailed → ⊥)
        → (F.state shelf.new).failed ≡ (F.state shelf.old).failed }

    ensures same_files { (F.state shelf.new).files ≡ (F.state shelf.old).files }

    // The answer whose text was cut short is the answer.
    ensures write_failed { result ≡ Status.WriteFailed → (ending : Ending)
        × Answers (task_of (map string_bytes words.now)).work (F.state shelf.old) ending (F.state shelf.new)
        × IfSome (F.state shelf.old).files (λ files. KeepsPromise (task_of (map string_bytes words.now)) files ending)
        × CutShort (ending_text ending) (W.state out.old) (W.state out.new) }

    ensures nothing_written { result ≡ Status.Memory → WroteNothing (W.state out.old) (W.state out.new) }

    // Where no read and no write failed, this is the answer of the told files, or memory ran out.
    ensures settled { (Rose (F.state shelf.old).faults (F.state shelf.new).faults → ⊥)
        → (Rose (W.state out.old).faults (W.state out.new).faults → ⊥)
        → (result ≡ Status.Memory) ⊎ IfSome (F.state shelf.old).files (λ files. (text : List ℕ)
        × IsAnswerOf (task_of (map string_bytes words.now)).work files result text
        × Wrote text (W.state out.old) (W.state out.new)) }
{
    let Some(answer) = words_answer(alloc, words, shelf) else {
        return Status::Memory;
    };
    match out.write_all(answer.text()) {
        Ok(()) => answer.status(),
        Err(WriteError::Failed) => Status::WriteFailed,
        Err(WriteError::Memory) => Status::Memory,
    }
}

/// Answers the words over files and a sink in memory, of which none fails.
pub fn run_in_memory(
    alloc: Global,
    words: &[String],
    shelf: &mut SureShelf,
    out: &mut SureSink,
) -> Status
    ensures no_failed_read { result ≡ Status.ReadFailed → ⊥ }
    ensures no_failed_write { result ≡ Status.WriteFailed → ⊥ }
    ensures settled { (result ≡ Status.Memory) ⊎ ((text : List ℕ) × (out.new.taken ≡ out.old.taken ++ text)
        × IsAnswerOf (task_of (map string_bytes words.now)).work (λ name. Some (content_of shelf.old.files name)) result
        text) }
{
    run(alloc, words, shelf, out)
}
