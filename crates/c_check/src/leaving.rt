//! Labels, and what leaves a statement.

ghost use Rattle.std.specs.Prelude.{◌≡◌, ℕ, List, ◌∷◌, Some, None, not, true, OnOk};
ghost use Rattle.std.specs.Option.{option_map};
ghost use Rattle.c_unit.specs.Tree.{value_of};
ghost use Rattle.c_unit.specs.Units.{Word};
ghost use Rattle.c_rules.specs.Faults.{Mistyped, earliest, when};
ghost use Rattle.c_rules.specs.Statements.{is_label, label_of, return_faults};
ghost use Rattle.c_rules.specs.Names.{Scope};
ghost use Rattle.c_scopes.specs.FirstFault.{told};
ghost use Rattle.c_faults.specs.Tells.{Tells};

use crate::labels::{Labels, label_of};
use c_faults::{Stop, check_value};
use c_scopes::{Definitions, Fault, Scopes, Words};
use c_unit::{Constant, Outcome, Scalar, Value};

/// A `case`: its constant is new in its switch, and stands there from now on.
pub fn check_case(
    words: &Words<'_>,
    labels: &mut Labels,
    token: u32,
    constant: Constant,
) -> Result<(), Stop>
    ensures tells { Tells result (when (is_label labels.old.labels (label_of words.now constant)) (Mistyped token)) }
    ensures marked { OnOk result
        (labels.new
        ≡ record { labels = label_of words.now constant ∷ labels.old.labels; has_default = labels.old.has_default }) }
{
    let label = label_of(words, constant);
    if labels.has(label) {
        return Err(Stop::Fault(Fault::Mistyped(token)));
    }
    labels.add(label)?;
    Ok(())
}

/// A `default`: it is the only one in its switch.
pub fn check_default(labels: &mut Labels, token: u32) -> Result<(), Fault>
    ensures told { told result ≡ earliest (when labels.old.has_default (Mistyped token)) }
    ensures marked { OnOk result (labels.new ≡ record { labels = labels.old.labels; has_default = true }) }
{
    if labels.has_default() {
        return Err(Fault::Mistyped(token));
    }
    labels.add_default();
    Ok(())
}

/// A `break` or a `continue`, which is wrong where it may not stand.
pub fn check_leaving(allowed: bool, token: u32) -> Result<(), Fault>
    ensures told { told result ≡ earliest (when (not allowed) (Mistyped token)) }
{
    if allowed {
        Ok(())
    } else {
        Err(Fault::Mistyped(token))
    }
}

/// A `return` in a function that gives this.
pub fn check_return(
    scopes: &Scopes<'_>,
    functions: &Definitions<'_>,
    result_type: Outcome,
    token: u32,
    value: &Option<Value>,
) -> Result<(), Stop>
    requires { functions.now.words ≡ scopes.now.words }
    ensures tells { Tells result
        (return_faults scopes.now.words functions.now.names scopes.now.scopes result_type token
        (option_map value_of value.now)) }
{
    match value {
        None => Ok(check_nothing(result_type, token)?),
        Some(value) => Ok(check_given(scopes, functions, result_type, token, value)?),
    }
}

// A `return` without a value.
fn check_nothing(result_type: Outcome, token: u32) -> Result<(), Fault>
    ensures told { (words : List Word) → (defined : List ℕ) → (scopes : List Scope)
        → told result ≡ earliest (return_faults words defined scopes result_type token None) }
{
    match result_type {
        Outcome::Nothing => Ok(()),
        Outcome::Integer(_) => Err(Fault::Mistyped(token)),
    }
}

// A `return` with a value.
fn check_given(
    scopes: &Scopes<'_>,
    functions: &Definitions<'_>,
    result_type: Outcome,
    token: u32,
    value: &Value,
) -> Result<(), Fault>
    requires { functions.now.words ≡ scopes.now.words }
    ensures told { told result
        ≡ earliest
        (return_faults scopes.now.words functions.now.names scopes.now.scopes result_type token
        (Some (value_of value.now))) }
{
    match result_type {
        Outcome::Nothing => Err(Fault::Mistyped(token)),
        Outcome::Integer(kind) => check_value(scopes, functions, Scalar::Integer(kind), value),
    }
}
