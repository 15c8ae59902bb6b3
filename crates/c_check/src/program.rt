//! What passes the checks.

ghost use Rattle.std.specs.Prelude.{◌≡◌};
ghost use Rattle.std.specs.Coded.{codes};
ghost use Rattle.c_unit.specs.Units.{unit_of};
ghost use Rattle.c_unit.specs.contracts.unit.CUnit as e;
ghost use Rattle.c_text.specs.Language.{IsSpelled};
ghost use Rattle.c_check.specs.Programs.{Keeps, PassesChecks, ProgramParts};

use c_unit::CUnit;
use flow_base::Name;
use std::marker::Model;

/// A unit that passes the checks, with its root.
#[derive(Drop)]
pub struct CProgram {
    unit: CUnit,
    root: Name,
}

impl Model for CProgram {
    ghost Value = { ProgramParts };

    ghost coded = { Prim.hlevel (codes, e.the_row.coded) };

    ghost view = { λ program. record { unit = program.unit; root = program.root } };

    ghost invariant = { λ program. Keeps (record { unit = program.unit; root = program.root }) };
}

impl CProgram {
    /// The program of these parts.
    pub fn new(unit: CUnit, root: Name) -> Self
        requires passes { PassesChecks (unit_of unit) root }
        requires spelled { IsSpelled (unit_of unit) }
        ensures { result ≡ record { unit = unit; root = root } }
    {
        CProgram { unit, root }
    }

    /// What each program keeps: nothing is wrong in it, its functions have ranks so that each call leads to a lower
    /// one, its root is defined, and some text spells its unit, so that it keeps the limits of texts too.
    pub fn keeps(&self)
        ensures passes { PassesChecks (unit_of self.now.unit) self.now.root }
        ensures spelled { IsSpelled (unit_of self.now.unit) }
    {
        let _unit = &self.unit;
    }

    /// The unit.
    pub fn unit(&self) -> &CUnit
        ensures { result.now ≡ self.now.unit }
    {
        &self.unit
    }

    /// The name of the function to start with.
    pub fn root(&self) -> &[u8]
        ensures { result.now ≡ self.now.root }
    {
        self.root.bytes()
    }
}
