//! `generate N`: a program of C that is made, and the numbers of its report.

ghost use Rattle.std.specs.Prelude.{◌≡◌, [], ◌∷◌, IfOk, IfSome};
ghost use Rattle.command_plans.specs.Works.{Works, Judges};
ghost use Rattle.answer_texts.specs.MadeProgram.{made_text};
ghost use Rattle.sweet_cli.specs.MadeFile.{made_files, made_name};
ghost use Rattle.sweet_cli.specs.Generate.{EndsOver, TellsSummary, summing};

use crate::commands::analyse::report_of;
use crate::words::{Merging, ProgramFile};
use answer_texts::{made_text, summary_text};
use command_files::{scoped_in, tables_in};
use command_plans::Stop;
use cost_table::a_file_has_one_answer;
use flow_base::{Shelf, SureShelf};
use program_analysis::found_reports_are_right;
use std::alloc::{AllocError, Global};

/// The numbers of the report of the program with so many pairs of loops.
///
/// The program goes the way of a file: it stands in one of a shelf in memory, which has no other.
pub fn generate(alloc: Global, number: u32) -> Result<Vec<u8>, Stop>
    ensures means { Judges (EndsOver summing (made_files number)) (λ text. text.items) result }
    ensures promise { IfOk result (λ text. TellsSummary (made_files number) text.items) }
{
    let mut shelf = made_shelf(alloc, number)?;
    summed(alloc, &mut shelf)
}

// A shelf that has the program.
fn made_shelf(alloc: Global, number: u32) -> Result<SureShelf, AllocError>
    ensures { IfOk result (λ shelf. shelf.files ≡ (made_name, made_text number) ∷ []) }
{
    let name = String::from_str(alloc, "made.c")?;
    let text = made_text(alloc, number)?;
    let mut files = Vec::new(alloc);
    files.push((name, text))?;
    Ok(SureShelf::new(files))
}

// The numbers of the report of the program in the file that is made.
#[tactic(auto, unfolding(crate::specs::Generate::summing))]
fn summed<F: Shelf>(alloc: Global, shelf: &mut F) -> Result<Vec<u8>, Stop>
    ensures work { Works summing (λ text. text.items) (F.state shelf.old) result (F.state shelf.new) }
    ensures promise { IfOk result (λ text. IfSome (F.state shelf.old).files (λ files. TellsSummary files text.items)) }
{
    found_reports_are_right();
    a_file_has_one_answer();
    let program = scoped_in(alloc, ProgramFile::C("made.c"), "main", shelf)?;
    let checked = &program.expanded.checked;
    let tables = tables_in(alloc, checked, None, None, shelf)?;
    let report = report_of(
        alloc,
        program,
        &tables,
        Merging::Joins,
        100_000,
        1_000,
        true,
    )?;
    let text = summary_text(alloc, &report)?;
    Ok(text)
}
