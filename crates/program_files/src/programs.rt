//! Programs of ALF in files, checked.

ghost use Rattle.std.specs.Prelude.{[], ◌∷◌, IfOk};
ghost use Rattle.alf_program.specs.Tree.{program_of};
ghost use Rattle.alf_program.specs.Writable.{IsWritable};
ghost use Rattle.alf_check.specs.CheckedPrograms.{seen};
ghost use Rattle.command_plans.specs.Works.{Works, Judges, OverRead};
ghost use Rattle.program_files.specs.Programs.{ProgramMeans, program_in, CheckMeans, numbered_in};
ghost use Rattle.program_files.specs.Told.{IsProgramOfText};

use crate::lines::{check_line, check_why, fault_line};
use alf_check::{Checked, check};
use alf_program::Program;
use alf_text::{one_meaning, read};
use command_plans::{Role, Stop, Why, read_file};
use flow_base::Shelf;
use std::alloc::Global;

/// The most bytes of a file.
pub const MOST_BYTES_OF_A_FILE: u64 = 1_048_576;

/// The line of a file that has more.
pub const TOO_LONG: &str = "fault 13 limit bytes 1048577\n";

/// The program that the file spells.
#[tactic(auto, unfolding(crate::specs::Programs::program_in))]
pub fn program_in<F: Shelf>(alloc: Global, file: &str, shelf: &mut F) -> Result<Program, Stop>
    ensures work { Works (program_in file.now) (λ program. program_of program) (F.state shelf.old) result
        (F.state shelf.new) }
    ensures written { IfOk result (λ program. IsWritable (program_of program)) }
{
    let bytes = read_file(
        alloc,
        shelf,
        Role::Program,
        file,
        MOST_BYTES_OF_A_FILE,
        TOO_LONG,
    )?;
    spelled(alloc, &bytes)
}

// The program that the bytes spell.
fn spelled(alloc: Global, bytes: &[u8]) -> Result<Program, Stop>
    ensures means { Judges (ProgramMeans bytes.now) (λ program. program_of program) result }
    ensures written { IfOk result (λ program. IsWritable (program_of program)) }
{
    one_meaning();
    match read(alloc, bytes) {
        Ok(program) => Ok(program),
        Err(fault) => match fault_line(alloc, &fault) {
            Ok(line) => Err(Stop::Told(Why::Source, line)),
            Err(_) => Err(Stop::Memory),
        },
    }
}

/// The program in the file, where it passes the checks.
#[tactic(auto, unfolding(crate::specs::Programs::numbered_in))]
pub fn numbered_in<F: Shelf>(
    alloc: Global,
    file: &str,
    root: &str,
    shelf: &mut F,
) -> Result<Checked, Stop>
    ensures work { Works (numbered_in file.now root.now) seen (F.state shelf.old) result (F.state shelf.new) }
    ensures told { IfOk result
        (λ checked. OverRead (F.state shelf.old) (F.state shelf.new) (file.now ∷ [])
        (λ files. IsProgramOfText file.now root.now files (seen checked))) }
{
    let program = program_in(alloc, file, shelf)?;
    checked(alloc, program, root)
}

// The program, where it passes the checks.
fn checked(alloc: Global, program: Program, root: &str) -> Result<Checked, Stop>
    requires { IsWritable (program_of program) }
    ensures { Judges (CheckMeans (program_of program) root.now) seen result }
{
    match check(alloc, program, root) {
        Ok(checked) => Ok(checked),
        Err(fault) => match check_line(alloc, &fault) {
            Ok(line) => Err(Stop::Told(check_why(&fault), line)),
            Err(_) => Err(Stop::Memory),
        },
    }
}
