//! Parameters.

ghost use Rattle.std.specs.Prelude.{◌≡◌, ◌∷◌, [], Some, OnOk, IfOk};
ghost use Rattle.c_rules.specs.Names.{innermost};
ghost use Rattle.c_rules.specs.Statements.{twice_faults};
ghost use Rattle.c_rules.specs.Units.{params_faults, types_of};
ghost use Rattle.c_faults.specs.Tells.{Tells};
ghost use Rattle.c_faults.specs.Files.{with_named, with_params};

use crate::stop::Stop;
use c_scopes::{Bound, Fault, Scopes};
use c_unit::{Parameter, Scalar};
use std::alloc::{AllocError, Global};

/// The first fault of parameters: a name that two of them have. Where there is none they stand in the innermost scope.
pub fn declare_params(scopes: &mut Scopes<'_>, params: &[Parameter]) -> Result<(), Stop>
    ensures tells { Tells result (params_faults scopes.old.words (innermost scopes.old.scopes) params.now) }
    ensures known { OnOk result (scopes.new ≡ with_params params.now scopes.old) }
{
    let mut rest = params;
    'params: while let Some((param, others)) = rest.split_first() {
        declare_param(scopes, param)?;
        rest = others;
    }
    Ok(())
}

// The same of one.
fn declare_param(scopes: &mut Scopes<'_>, param: &Parameter) -> Result<(), Stop>
    ensures tells { Tells result (params_faults scopes.old.words (innermost scopes.old.scopes) (param.now ∷ [])) }
    ensures known { OnOk result (scopes.new ≡ with_params (param.now ∷ []) scopes.old) }
{
    match param.name {
        Some(name) => declare_named(scopes, name, param.kind),
        None => Ok(()),
    }
}

// A parameter that has a name.
fn declare_named(scopes: &mut Scopes<'_>, name: u32, kind: Scalar) -> Result<(), Stop>
    ensures tells { Tells result (twice_faults scopes.old.words (innermost scopes.old.scopes) name) }
    ensures known { OnOk result (scopes.new ≡ with_named (Some name) kind scopes.old) }
{
    if scopes.is_declared(name) {
        return Err(Stop::Fault(Fault::Duplicate(name)));
    }
    scopes.declare(name, Bound::Variable(kind))?;
    Ok(())
}

/// The types of parameters.
pub fn types_of(alloc: Global, params: &[Parameter]) -> Result<Vec<Scalar>, AllocError>
    ensures { IfOk result (λ types. types.items ≡ types_of params.now) }
{
    let mut types = Vec::new(alloc);
    for param in params {
        types.push(param.kind)?;
    }
    Ok(types)
}
