//! Checked programs of ALF to which programs of C are lowered.

ghost use Rattle.std.specs.Prelude.{◌≡◌, IfOk, OnOk};
ghost use Rattle.alf_check.specs.CheckedPrograms.{seen};
ghost use Rattle.alf_check.specs.Checking.{Passes};
ghost use Rattle.alf_check.specs.Numbered.{numbered};
ghost use Rattle.c_unit.specs.Units.{unit_of};
ghost use Rattle.c_lowered.specs.Programs.{lowered};
ghost use Rattle.c_lower.specs.Outcomes.{HasUnitsOutcomes};

use crate::texts::lower_text;
use alf_check::{Checked, number};
use c_check::CProgram;
use std::alloc::{AllocError, Global};

/// The checked program of ALF that a program of C is lowered to: that of what `lower_text` gives, with the same root.
///
/// Takes memory for that program, which is given up, and for the numbers of its names. It passes the checks of ALF,
/// which are not made again, so that want of memory is all that can stop it.
pub fn lower(alloc: Global, program: &CProgram) -> Result<Checked, AllocError>
    ensures passes { OnOk result (Passes (lowered (unit_of program.now.unit)) program.now.root) }
    ensures numbered { IfOk result
        (λ checked. seen checked ≡ numbered (lowered (unit_of program.now.unit)) program.now.root) }
    ensures outcomes { IfOk result
        (λ checked. HasUnitsOutcomes (unit_of program.now.unit) program.now.root (seen checked)) }
{
    let text = lower_text(alloc, program)?;
    let checked = number(alloc, &text, program.root())?;
    checked.keeps();
    Ok(checked)
}
