//! Values.

ghost use Rattle.std.specs.Prelude.{◌≡◌, Some};
ghost use Rattle.c_unit.specs.Tree.{value_of};
ghost use Rattle.c_rules.specs.Faults.{earliest};
ghost use Rattle.c_rules.specs.Calls.{value_faults};
ghost use Rattle.c_scopes.specs.FirstFault.{told};

use crate::calls::check_call;
use crate::uses::Use;
use crate::wanted::check_wanted;
use c_scopes::{Definitions, Fault, Scopes};
use c_unit::{Scalar, Value};

/// The first fault of a value where such a type is wanted.
pub fn check_value(
    scopes: &Scopes<'_>,
    functions: &Definitions<'_>,
    wanted: Scalar,
    value: &Value,
) -> Result<(), Fault>
    requires { functions.now.words ≡ scopes.now.words }
    ensures told { told result
        ≡ earliest
        (value_faults scopes.now.words functions.now.names scopes.now.scopes (Some wanted) (value_of value.now)) }
{
    match value {
        Value::Expr(e) => check_wanted(scopes, Some(wanted), e),
        Value::Call(call) => check_call(scopes, functions, Use::Valued(wanted), call),
    }
}
