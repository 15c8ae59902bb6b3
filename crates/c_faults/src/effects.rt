//! What statements do.

ghost use Rattle.std.specs.Prelude.{◌≡◌, Some};
ghost use Rattle.c_unit.specs.Tree.{expression_of, effect_of};
ghost use Rattle.c_unit.specs.Measures.{first_of};
ghost use Rattle.c_rules.specs.Faults.{earliest};
ghost use Rattle.c_rules.specs.Statements.{update_faults, effect_faults};
ghost use Rattle.c_scopes.specs.FirstFault.{told};

use crate::calls::check_call;
use crate::expressions::expression_type;
use crate::uses::Use;
use crate::values::check_value;
use crate::wanted::target_type;
use c_scopes::{Definitions, Fault, Scopes, binary_type, suits};
use c_unit::{Binary, Effect, Expr, Scalar};

/// The first fault of what a statement does.
pub fn check_effect(
    scopes: &Scopes<'_>,
    functions: &Definitions<'_>,
    effect: &Effect,
) -> Result<(), Fault>
    requires { functions.now.words ≡ scopes.now.words }
    ensures told { told result
        ≡ earliest (effect_faults scopes.now.words functions.now.names scopes.now.scopes (effect_of effect.now)) }
{
    match effect {
        Effect::Assign(to, _, value) => {
            let wanted = target_type(scopes, to)?;
            check_value(scopes, functions, wanted, value)
        }
        Effect::Update(to, op, _, operand) => {
            let wanted = target_type(scopes, to)?;
            let other = expression_type(scopes, operand)?;
            check_update(*op, wanted, other, to)
        }
        Effect::Step(operand, _, _) => {
            target_type(scopes, operand)?;
            Ok(())
        }
        Effect::Call(call) => check_call(scopes, functions, Use::Dropped, call),
    }
}

// `x op= e` is typed as `x = x op e`, and wrong at `x`.
fn check_update(op: Binary, wanted: Scalar, other: Scalar, to: &Expr) -> Result<(), Fault>
    ensures told { told result
        ≡ earliest (update_faults op (Some wanted) (Some other) (first_of (expression_of to.now))) }
{
    match binary_type(op, wanted, other) {
        Some(given) if suits(wanted, given) => Ok(()),
        _ => Err(Fault::Mistyped(to.first())),
    }
}
