//! Calls.

ghost use Rattle.std.specs.Prelude.{◌≡◌};
ghost use Rattle.c_unit.specs.Tree.{call_of};
ghost use Rattle.c_rules.specs.Faults.{earliest};
ghost use Rattle.c_rules.specs.Calls.{call_faults, bound_faults, function_faults};
ghost use Rattle.c_scopes.specs.Views.{bound_of};
ghost use Rattle.c_scopes.specs.FirstFault.{told};
ghost use Rattle.c_faults.specs.Uses.{use_of};

use crate::arguments::check_arguments;
use crate::uses::{Use, check_use};
use c_scopes::{Bound, Definitions, Fault, Scopes};
use c_unit::{Call, Outcome};

/// The first fault of a call: of its name, its use and the count of its arguments, and then of these.
pub fn check_call(
    scopes: &Scopes<'_>,
    functions: &Definitions<'_>,
    way: Use,
    call: &Call,
) -> Result<(), Fault>
    requires { functions.now.words ≡ scopes.now.words }
    ensures told { told result
        ≡ earliest
        (call_faults scopes.now.words functions.now.names scopes.now.scopes (use_of way) (call_of call.now)) }
{
    match scopes.look_up(call.name) {
        Some(entry) => check_bound(scopes, functions, way, call, &entry.bound),
        None => Err(Fault::Unknown(call.name)),
    }
}

// The same, where the name is bound so.
fn check_bound(
    scopes: &Scopes<'_>,
    functions: &Definitions<'_>,
    way: Use,
    call: &Call,
    bound: &Bound,
) -> Result<(), Fault>
    requires { functions.now.words ≡ scopes.now.words }
    ensures told { told result
        ≡ earliest
        (bound_faults scopes.now.words functions.now.names scopes.now.scopes (use_of way) (call_of call.now)
        (bound_of bound.now)) }
{
    match bound {
        Bound::Variable(_) => Err(Fault::Mistyped(call.name)),
        Bound::Array(_) => Err(Fault::Mistyped(call.name)),
        Bound::Function(given, params) => {
            if !functions.is_defined(call.name) {
                return Err(Fault::Unknown(call.name));
            }
            check_function(way, *given, call.arguments.len(), params.len(), call.name)?;
            check_arguments(scopes, &call.arguments, params)
        }
    }
}

// The use of a function that is defined, and the count of its arguments.
fn check_function(
    way: Use,
    given: Outcome,
    count: usize,
    taken: usize,
    token: u32,
) -> Result<(), Fault>
    ensures told { told result ≡ earliest (function_faults (use_of way) given count taken token) }
{
    check_use(way, given, token)?;
    if count == taken {
        Ok(())
    } else {
        Err(Fault::Mistyped(token))
    }
}
