//! Whole units.

ghost use Rattle.std.specs.Prelude.{◌≡◌, IfOk};
ghost use Rattle.alf_program.specs.Tree.{program_of};
ghost use Rattle.c_unit.specs.Units.{unit_of};
ghost use Rattle.c_lowered.specs.Programs.{lowered};
ghost use Rattle.object_layout.specs.Room.{HasRoom};
ghost use Rattle.object_layout.specs.Views.{program_in};
ghost use Rattle.c_lower.specs.Walk.{HaveFewNumbers};

use crate::functions::lowered_functions;
use alf_program::Program;
use c_unit::CUnit;
use frame_lowering::{exports_of, global_frames, initial_values};
use object_layout::Table;
use std::alloc::{AllocError, Global};

/// The program of ALF that a unit is lowered to. Takes memory for the program and for the names in scope.
pub fn lower_unit(alloc: Global, unit: &CUnit) -> Result<Program, AllocError>
    requires room { HasRoom (unit_of unit.now) }
    requires few { HaveFewNumbers (program_in unit.now) (unit_of unit.now).externals }
    ensures lowered { IfOk result (λ text. program_of text ≡ lowered (unit_of unit.now)) }
{
    let table = Table::of(alloc, unit)?;
    let exports = exports_of(alloc, &table, &unit.externals)?;
    let decls = global_frames(alloc, &table)?;
    let inits = initial_values(alloc, &table, &unit.externals)?;
    let funcs = lowered_functions(alloc, &table, unit)?;
    Ok(Program {
        exports,
        labels: Vec::new(alloc),
        decls,
        inits,
        funcs,
    })
}
