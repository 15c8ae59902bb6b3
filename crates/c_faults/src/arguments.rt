//! Arguments of calls.

ghost use Rattle.std.specs.Prelude.{◌≡◌, map};
ghost use Rattle.c_unit.specs.Tree.{expression_of};
ghost use Rattle.c_rules.specs.Faults.{earliest};
ghost use Rattle.c_rules.specs.Calls.{argument_faults};
ghost use Rattle.c_faults.specs.Params.{next_of, others_of};
ghost use Rattle.c_scopes.specs.FirstFault.{told};

use crate::wanted::check_wanted;
use c_scopes::{Fault, Scopes};
use c_unit::{Expr, Scalar};

/// The first fault of arguments, each with the type of its parameter as far as there are parameters.
pub fn check_arguments(
    scopes: &Scopes<'_>,
    arguments: &[Expr],
    params: &[Scalar],
) -> Result<(), Fault>
    ensures told { told result
        ≡ earliest (argument_faults scopes.now.words scopes.now.scopes (map expression_of arguments.now) params.now) }
{
    let mut params = params;
    for argument in arguments {
        check_wanted(scopes, next(params), argument)?;
        params = others(params);
    }
    Ok(())
}

// The type of the next parameter, if there is one.
fn next(params: &[Scalar]) -> Option<Scalar>
    ensures { result ≡ next_of params.now }
{
    match params.split_first() {
        Some((first, _)) => Some(*first),
        None => None,
    }
}

// The types after it.
fn others(params: &[Scalar]) -> &[Scalar]
    ensures { result.now ≡ others_of params.now }
{
    match params.split_first() {
        Some((_, others)) => others,
        None => params,
    }
}
