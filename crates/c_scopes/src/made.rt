//! Names of definitions, in order.

ghost use Rattle.std.specs.Prelude.{◌≡◌, ◌++◌, map, IfOk, OnOk};
ghost use Rattle.c_unit.specs.Tree.{external_of};
ghost use Rattle.c_rules.specs.Units.{definitions};
ghost use Rattle.c_scopes.specs.Numbers.{made_by};

use c_unit::External;
use std::alloc::{AllocError, Global};

/// The names of the functions that are defined, in order.
pub fn names_of(alloc: Global, externals: &[External]) -> Result<Vec<u32>, AllocError>
    ensures { IfOk result (λ names. names.items ≡ definitions (map external_of externals.now)) }
{
    let mut names = Vec::new(alloc);
    for external in externals {
        note(&mut names, external)?;
    }
    Ok(names)
}

// Notes the name, if this is a definition.
fn note(names: &mut Vec<u32>, external: &External) -> Result<(), AllocError>
    ensures { OnOk result (names.new.items ≡ names.old.items ++ made_by (external_of external.now)) }
{
    match external {
        External::Declare(_, _, _) => {}
        External::Define(_, _, name, _, _) => {
            names.push(*name)?;
        }
    }
    Ok(())
}
