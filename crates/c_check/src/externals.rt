//! What stands at file level.

ghost use Rattle.std.specs.Prelude.{◌≡◌, ◌+◌, ◌≤◌, length, OnOk};
ghost use Rattle.c_unit.specs.Tree.{external_of};
ghost use Rattle.c_unit.specs.Units.{unit_of};
ghost use Rattle.c_rules.specs.Units.{definitions, external_faults, external_after, faults_in};
ghost use Rattle.c_scopes.specs.Numbers.{made_by};
ghost use Rattle.c_faults.specs.Tells.{Tells};
ghost use Rattle.c_faults.specs.Files.{IsFile};
ghost use Rattle.c_faults.specs.FileLaws.{known_at};
ghost use Rattle.c_check.specs.Progress.{file_at};

use crate::functions::check_function;
use c_faults::{Stop, check_declarators};
use c_scopes::{Definitions, Scopes};
use c_unit::{CUnit, External};
use std::alloc::Global;

/// The first fault of a unit in the order of its text; `functions` are those that it defines.
pub fn check_unit(alloc: Global, functions: &Definitions<'_>, unit: &CUnit) -> Result<(), Stop>
    requires words { functions.now.words ≡ (unit_of unit.now).words }
    requires names { functions.now.names ≡ definitions (unit_of unit.now).externals }
    ensures tells { Tells result (faults_in (unit_of unit.now)) }
{
    let mut scopes = Scopes::new(alloc, unit);
    scopes.enter()?;
    let mut count = 0;
    let mut rest = unit.externals.as_slice();
    'externals: while let Some((external, others)) = rest.split_first() {
        if let Err(stop) = check_external(alloc, functions, &mut scopes, count, external) {
            return Err(stop);
        }
        count = count_after(functions, count, external);
        rest = others;
    }
    Ok(())
}

// The first fault of what stands here, after so many definitions.
fn check_external(
    alloc: Global,
    functions: &Definitions<'_>,
    scopes: &mut Scopes<'_>,
    count: usize,
    external: &External,
) -> Result<(), Stop>
    requires words { functions.now.words ≡ scopes.old.words }
    requires file { IsFile scopes.old }
    ensures tells { Tells result
        (external_faults scopes.old.words functions.now.names (file_at scopes.old functions.now.names count)
        (external_of external.now)) }
    ensures known { OnOk result
        (scopes.new
        ≡ known_at scopes.old.words
        (external_after (file_at scopes.old functions.now.names count) (external_of external.now)).scope) }
{
    match external {
        External::Declare(first, given, declarators) => {
            check_declarators(alloc, scopes, *first, *given, declarators)
        }
        External::Define(first, given, name, params, body) => check_function(
            alloc, functions, scopes, count, *first, *given, *name, params, body,
        ),
    }
}

// How many definitions stand before what is next; there are no more than all.
fn count_after(functions: &Definitions<'_>, count: usize, external: &External) -> usize
    ensures { count + length (made_by (external_of external.now)) ≤ length functions.now.names
        → result ≡ count + length (made_by (external_of external.now)) }
{
    match external {
        External::Declare(_, _, _) => count,
        External::Define(_, _, _, _, _) => {
            if count < functions.names().len() {
                count + 1
            } else {
                count
            }
        }
    }
}
