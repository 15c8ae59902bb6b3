//! Functions that are defined.

ghost use Rattle.std.specs.Prelude.{◌≡◌, map, OnOk};
ghost use Rattle.c_unit.specs.Tree.{Definition, statement_of};
ghost use Rattle.c_rules.specs.Units.{external_faults, external_after};
ghost use Rattle.c_faults.specs.Tells.{Tells};
ghost use Rattle.c_faults.specs.Files.{IsFile};
ghost use Rattle.c_faults.specs.FileLaws.{known_at};
ghost use Rattle.c_check.specs.Progress.{file_at};

use crate::body_statements::check_body;
use c_faults::{Stop, check_head};
use c_scopes::{Definitions, Fault, Scopes};
use c_unit::{Outcome, Parameter, Stmt};
use std::alloc::Global;

/// The first fault of a function that is defined here, after so many other definitions. Where there is none it is
/// known in the file's scope.
pub fn check_function(
    alloc: Global,
    functions: &Definitions<'_>,
    scopes: &mut Scopes<'_>,
    count: usize,
    first: u32,
    given: Outcome,
    name: u32,
    params: &[Parameter],
    body: &[Stmt],
) -> Result<(), Stop>
    requires words { functions.now.words ≡ scopes.old.words }
    requires file { IsFile scopes.old }
    ensures tells { Tells result
        (external_faults scopes.old.words functions.now.names (file_at scopes.old functions.now.names count)
        (Definition first given name params.now (map statement_of body.now))) }
    ensures known { OnOk result
        (scopes.new
        ≡ known_at scopes.old.words
        (external_after (file_at scopes.old functions.now.names count)
        (Definition first given name params.now (map statement_of body.now))).scope) }
{
    if functions.is_defined_before(count, name) {
        return Err(Stop::Fault(Fault::Duplicate(name)));
    }
    if let Err(stop) = check_head(alloc, scopes, first, given, name, params) {
        return Err(stop);
    }
    if let Err(stop) = check_body(alloc, functions, scopes, given, body) {
        return Err(stop);
    }
    scopes.leave()?;
    Ok(())
}
