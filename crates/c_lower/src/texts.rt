//! Programs of ALF to which programs of C are lowered.

ghost use Rattle.std.specs.Prelude.{◌≡◌, ◌≤◌, ◌^◌, ◌↔◌, IsTrue, length, IfOk, OnOk};
ghost use Rattle.alf_program.specs.Tree.{program_of};
ghost use Rattle.alf_program.specs.Writable.{IsWritable};
ghost use Rattle.alf_check.specs.Checking.{Passes};
ghost use Rattle.c_unit.specs.Units.{unit_of};
ghost use Rattle.c_lowered.specs.Programs.{lowered};
ghost use Rattle.c_lower.specs.Outcomes.{HaveUnitsOutcomes};

use crate::lowering::lower_unit;
use crate::program_laws::spelled_programs_have_the_outcome_of_their_unit;
use crate::text_laws::{
    spelled_programs_have_few_numbers, spelled_programs_pass, spelled_units_have_room,
};
use alf_program::Program;
use c_check::CProgram;
use c_unit::CUnit;
use std::alloc::{AllocError, Global};

// As many as 32 bits can number.
const MOST_TOKENS: u64 = 4_294_967_296;

// Whether the unit has at most so many tokens.
fn are_few(unit: &CUnit) -> bool
    ensures { IsTrue result ↔ length unit.now.tokens.items ≤ 2 ^ 32 }
{
    unit.tokens.len() as u64 <= MOST_TOKENS
}

/// The program of ALF that a program of C is lowered to.
///
/// It can be written and passes the checks of ALF with the root of the program of C, and each checked program that is
/// made of it has the outcome of the unit. Takes memory for the program and for the names in scope. A text of more
/// than 2^32 tokens has the answer of want of memory; no text that is read has so many, since it has at most 1,048,576
/// bytes.
pub fn lower_text(alloc: Global, program: &CProgram) -> Result<Program, AllocError>
    ensures lowered { IfOk result (λ text. program_of text ≡ lowered (unit_of program.now.unit)) }
    ensures writable { IfOk result (λ text. IsWritable (program_of text)) }
    ensures passes { OnOk result (Passes (lowered (unit_of program.now.unit)) program.now.root) }
    ensures outcomes { OnOk result (HaveUnitsOutcomes (unit_of program.now.unit) program.now.root) }
{
    spelled_programs_pass();
    spelled_units_have_room();
    spelled_programs_have_few_numbers();
    spelled_programs_have_the_outcome_of_their_unit();
    program.keeps();
    let unit = program.unit();
    if !are_few(unit) {
        return Err(AllocError);
    }
    let text = lower_unit(alloc, unit)?;
    Ok(text)
}
