//! Units of C in files, checked.

ghost use Rattle.std.specs.Prelude.{◌≡◌, [], ◌∷◌, IfOk};
ghost use Rattle.c_unit.specs.Units.{unit_of};
ghost use Rattle.c_text.specs.Language.{IsSpelled};
ghost use Rattle.command_plans.specs.Works.{Works, Judges, OverRead};
ghost use Rattle.program_files.specs.Units.{UnitMeans, unit_in, UnitCheckMeans, checked_unit_in};
ghost use Rattle.program_files.specs.Told.{IsToldUnit};

use crate::lines::{refusal_line, refusal_why, unit_line};
use crate::programs::MOST_BYTES_OF_A_FILE;
use c_check::{CProgram, check};
use c_text::{CUnit, one_meaning, read};
use command_plans::{Role, Stop, Why, read_file};
use flow_base::Shelf;
use graph_walks::ranked_calls_have_no_cycle;
use std::alloc::Global;

// The line of a file that has more bytes than a file may have.
const TOO_LONG: &str = "fault 93 limit bytes 1048577\n";

/// The unit that the file spells.
#[tactic(auto, unfolding(crate::specs::Units::unit_in))]
pub fn unit_in<F: Shelf>(alloc: Global, file: &str, shelf: &mut F) -> Result<CUnit, Stop>
    ensures work { Works (unit_in file.now) (λ unit. unit_of unit) (F.state shelf.old) result (F.state shelf.new) }
    ensures spelled { IfOk result (λ unit. IsSpelled (unit_of unit)) }
{
    let bytes = read_file(
        alloc,
        shelf,
        Role::Program,
        file,
        MOST_BYTES_OF_A_FILE,
        TOO_LONG,
    )?;
    spelled(alloc, &bytes)
}

// The unit that the bytes spell.
fn spelled(alloc: Global, bytes: &[u8]) -> Result<CUnit, Stop>
    ensures means { Judges (UnitMeans bytes.now) (λ unit. unit_of unit) result }
    ensures spelled { IfOk result (λ unit. IsSpelled (unit_of unit)) }
{
    one_meaning();
    match read(alloc, bytes) {
        Ok(unit) => Ok(unit),
        Err(fault) => match unit_line(alloc, &fault) {
            Ok(line) => Err(Stop::Told(Why::Source, line)),
            Err(_) => Err(Stop::Memory),
        },
    }
}

/// The unit in the file, where it passes the checks and has a function of this name.
#[tactic(auto, unfolding(crate::specs::Units::checked_unit_in))]
pub fn checked_unit_in<F: Shelf>(
    alloc: Global,
    file: &str,
    root: &str,
    shelf: &mut F,
) -> Result<CProgram, Stop>
    ensures work { Works (checked_unit_in file.now root.now) (λ program. unit_of program.unit) (F.state shelf.old)
        result (F.state shelf.new) }
    ensures told { IfOk result
        (λ program. OverRead (F.state shelf.old) (F.state shelf.new) (file.now ∷ [])
        (λ files. IsToldUnit file.now root.now files (unit_of program.unit))) }
    ensures root { IfOk result (λ program. program.root ≡ root.now) }
{
    let unit = unit_in(alloc, file, shelf)?;
    checked(alloc, unit, root)
}

// The unit, where it passes the checks.
fn checked(alloc: Global, unit: CUnit, root: &str) -> Result<CProgram, Stop>
    requires { IsSpelled (unit_of unit) }
    ensures means { Judges (UnitCheckMeans (unit_of unit) root.now) (λ program. unit_of program.unit) result }
    ensures root { IfOk result (λ program. program.root ≡ root.now) }
{
    ranked_calls_have_no_cycle();
    match check(alloc, unit, root) {
        Ok(program) => Ok(program),
        Err(fault) => match refusal_line(alloc, &fault) {
            Ok(line) => Err(Stop::Told(refusal_why(&fault), line)),
            Err(_) => Err(Stop::Memory),
        },
    }
}
