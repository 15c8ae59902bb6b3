//! The canonical text of a program, which spells it.

ghost use Rattle.std.specs.Prelude.{◌≡◌, IfOk};
ghost use Rattle.alf_program.specs.Tree.{program_of};
ghost use Rattle.alf_text.specs.Canonical.{canonical_text};
ghost use Rattle.alf_text.specs.Language.{SpellsProgram, IsSpelled};

use crate::laws::canonical_texts_are_read_back;
use alf_program::Program;
use std::alloc::{AllocError, Global};

/// The canonical text of a program, which is read as the same program.
///
/// The tokens stand with one space between two of them, but with a line feed in its place before each
/// member of the lists of frames, initial values, functions and statements. A number has no zeros
/// before its digits, and a signed number that is negative is written by its distance from 0. Takes
/// memory for the text.
pub fn print(alloc: Global, program: &Program) -> Result<Vec<u8>, AllocError>
    ensures text { IfOk result (λ text. text.items ≡ canonical_text (program_of program.now)) }

    // Where the program was read from a text, the text printed is read as the same program.
    ensures spelled { IsSpelled (program_of program.now)
        → IfOk result (λ text. SpellsProgram text.items (program_of program.now)) }
{
    canonical_texts_are_read_back();
    let text = crate::printer::print(alloc, program)?;
    Ok(text)
}
