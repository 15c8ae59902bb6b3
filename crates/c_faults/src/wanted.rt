//! What stands where a type is wanted, and what is assigned.

ghost use Rattle.std.specs.Prelude.{◌≡◌, Some, IfOk};
ghost use Rattle.c_unit.specs.Tree.{expression_of};
ghost use Rattle.c_rules.specs.Faults.{earliest};
ghost use Rattle.c_rules.specs.Expressions as laws;
ghost use Rattle.c_scopes.specs.FirstFault.{told};

use crate::expressions::expression_type;
use crate::leaves::designates;
use crate::operators::check_suits;
use c_scopes::{Fault, Scopes};
use c_unit::{Expr, Integer, Scalar};

/// The first fault of an expression where such a type is wanted, if one is. Where its type does not suit, it is
/// wrong itself.
pub fn check_wanted(scopes: &Scopes<'_>, wanted: Option<Scalar>, e: &Expr) -> Result<(), Fault>
    ensures told { told result
        ≡ earliest (laws.wanted_faults scopes.now.words scopes.now.scopes wanted (expression_of e.now)) }
{
    let given = expression_type(scopes, e)?;
    match wanted {
        Some(wanted) => check_suits(wanted, given, e),
        None => Ok(()),
    }
}

/// The first fault of a condition, which is an integer.
pub fn check_condition(scopes: &Scopes<'_>, e: &Expr) -> Result<(), Fault>
    ensures told { told result
        ≡ earliest (laws.condition_faults scopes.now.words scopes.now.scopes (expression_of e.now)) }
{
    check_wanted(scopes, Some(Scalar::Integer(Integer::Int)), e)
}

/// The type of what is assigned, or the first fault of it. Where it may not be assigned to, it is wrong itself.
pub fn target_type(scopes: &Scopes<'_>, e: &Expr) -> Result<Scalar, Fault>
    ensures told { told result
        ≡ earliest (laws.target_faults scopes.now.words scopes.now.scopes (expression_of e.now)) }
    ensures typed { IfOk result
        (λ t. laws.target_type scopes.now.words scopes.now.scopes (expression_of e.now) ≡ Some t) }
{
    let given = expression_type(scopes, e)?;
    if designates(scopes, e) {
        Ok(given)
    } else {
        Err(Fault::Mistyped(e.first()))
    }
}
