//! Parts of a `for` that may not stand there.

ghost use Rattle.std.specs.Prelude.{◌≡◌};
ghost use Rattle.std.specs.Option.{option_map};
ghost use Rattle.c_unit.specs.Tree.{expression_of, effect_of};
ghost use Rattle.c_rules.specs.Faults.{earliest};
ghost use Rattle.c_rules.specs.Statements.{if_condition, if_effect};
ghost use Rattle.c_scopes.specs.FirstFault.{told};

use c_faults::{check_condition, check_effect};
use c_scopes::{Definitions, Fault, Scopes};
use c_unit::{Effect, Expr};

/// A condition, if there is one.
pub fn check_if_condition(scopes: &Scopes<'_>, condition: &Option<Expr>) -> Result<(), Fault>
    ensures told { told result
        ≡ earliest (if_condition scopes.now.words scopes.now.scopes (option_map expression_of condition.now)) }
{
    match condition {
        None => Ok(()),
        Some(condition) => check_condition(scopes, condition),
    }
}

/// What is done after each turn, if anything is.
pub fn check_if_effect(
    scopes: &Scopes<'_>,
    functions: &Definitions<'_>,
    effect: &Option<Effect>,
) -> Result<(), Fault>
    requires { functions.now.words ≡ scopes.now.words }
    ensures told { told result
        ≡ earliest
        (if_effect scopes.now.words functions.now.names scopes.now.scopes (option_map effect_of effect.now)) }
{
    match effect {
        None => Ok(()),
        Some(effect) => check_effect(scopes, functions, effect),
    }
}
