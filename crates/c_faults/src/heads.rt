//! Heads of functions.

ghost use Rattle.std.specs.Prelude.{◌≡◌, OnOk};
ghost use Rattle.c_faults.specs.Tells.{Tells};
ghost use Rattle.c_faults.specs.Files.{IsFile, head_faults, with_head};

use crate::agreement::{agrees, is_free};
use crate::params::{declare_params, types_of};
use crate::stop::Stop;
use c_scopes::{Bound, Fault, Scopes};
use c_unit::{Outcome, Parameter};
use std::alloc::Global;

/// The first fault of the head of a function: an object has its name, two parameters have one name, or the function had
/// another type before, which is wrong at the first token. Where there is none the function is known, and a scope more
/// has its parameters.
pub fn check_head(
    alloc: Global,
    scopes: &mut Scopes<'_>,
    first: u32,
    given: Outcome,
    name: u32,
    params: &[Parameter],
) -> Result<(), Stop>
    requires { IsFile scopes.old }
    ensures tells { Tells result (head_faults scopes.old first given name params.now) }
    ensures known { OnOk result (scopes.new ≡ with_head given name params.now scopes.old) }
{
    let types = types_of(alloc, params)?;
    if !is_free(scopes, name) {
        return Err(Stop::Fault(Fault::Duplicate(name)));
    }
    let agrees = agrees(scopes, name, given, &types);
    scopes.declare(name, Bound::Function(given, types))?;
    scopes.enter()?;
    declare_params(scopes, params)?;
    if !agrees {
        return Err(Stop::Fault(Fault::Mistyped(first)));
    }
    Ok(())
}
