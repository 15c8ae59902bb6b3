//! Locals.

ghost use Rattle.std.specs.Prelude.{◌≡◌, [], ◌∷◌, map, OnOk};
ghost use Rattle.std.specs.Option.{option_map};
ghost use Rattle.c_unit.specs.Tree.{local_of, local_shape_of, value_of};
ghost use Rattle.c_rules.specs.Faults.{earliest};
ghost use Rattle.c_rules.specs.Statements.{local_bound, locals_faults, shape_faults, first_value_faults};
ghost use Rattle.c_scopes.specs.Views.{bound_of};
ghost use Rattle.c_scopes.specs.FirstFault.{told};
ghost use Rattle.c_faults.specs.Tells.{Tells};
ghost use Rattle.c_faults.specs.Known.{local_faults, with_declared};

use crate::arrays::check_array;
use crate::stop::Stop;
use crate::values::check_value;
use c_scopes::{Bound, Definitions, Fault, Scopes};
use c_unit::{Integer, Local, LocalShape, Scalar, Value};

/// The first fault of locals that are declared. Where there is none they stand in the innermost scope.
pub fn check_locals(
    scopes: &mut Scopes<'_>,
    functions: &Definitions<'_>,
    kind: Integer,
    locals: &[Local],
) -> Result<(), Stop>
    requires { functions.now.words ≡ scopes.old.words }
    ensures tells { Tells result
        (locals_faults scopes.old.words functions.now.names kind scopes.old.scopes (map local_of locals.now)) }
    ensures known { OnOk result (scopes.new ≡ with_declared kind scopes.old (map local_of locals.now)) }
{
    let mut rest = locals;
    'locals: while let Some((local, others)) = rest.split_first() {
        check_local(scopes, functions, kind, local)?;
        rest = others;
    }
    Ok(())
}

// The first fault of a local.
fn check_local(
    scopes: &mut Scopes<'_>,
    functions: &Definitions<'_>,
    kind: Integer,
    local: &Local,
) -> Result<(), Stop>
    requires { functions.now.words ≡ scopes.old.words }
    ensures tells { Tells result
        (local_faults scopes.old.words functions.now.names kind scopes.old.scopes (local_of local.now)) }
    ensures known { OnOk result (scopes.new ≡ with_declared kind scopes.old (local_of local.now ∷ [])) }
{
    if scopes.is_declared(local.name) {
        return Err(Stop::Fault(Fault::Duplicate(local.name)));
    }
    scopes.declare(local.name, local_bound(kind, &local.shape))?;
    check_shape(scopes, functions, kind, &local.shape)?;
    Ok(())
}

// What a local is bound to.
fn local_bound(kind: Integer, shape: &LocalShape) -> Bound
    ensures { bound_of result ≡ local_bound kind (local_shape_of shape.now) }
{
    match shape {
        LocalShape::Integer(_) => Bound::Variable(Scalar::Integer(kind)),
        LocalShape::Pointer(_) => Bound::Variable(Scalar::Pointer(kind)),
        LocalShape::Array(_, _) => Bound::Array(kind),
    }
}

// The first fault of what a local holds at first.
fn check_shape(
    scopes: &Scopes<'_>,
    functions: &Definitions<'_>,
    kind: Integer,
    shape: &LocalShape,
) -> Result<(), Fault>
    requires { functions.now.words ≡ scopes.now.words }
    ensures told { told result
        ≡ earliest
        (shape_faults scopes.now.words functions.now.names scopes.now.scopes kind (local_shape_of shape.now)) }
{
    match shape {
        LocalShape::Integer(first) => check_first(scopes, functions, Scalar::Integer(kind), first),
        LocalShape::Pointer(first) => check_first(scopes, functions, Scalar::Pointer(kind), first),
        LocalShape::Array(size, firsts) => check_array(scopes.words(), *size, firsts),
    }
}

// The first fault of a value that a local may have at first.
fn check_first(
    scopes: &Scopes<'_>,
    functions: &Definitions<'_>,
    wanted: Scalar,
    first: &Option<Value>,
) -> Result<(), Fault>
    requires { functions.now.words ≡ scopes.now.words }
    ensures told { told result
        ≡ earliest
        (first_value_faults scopes.now.words functions.now.names scopes.now.scopes wanted
        (option_map value_of first.now)) }
{
    match first {
        None => Ok(()),
        Some(value) => check_value(scopes, functions, wanted, value),
    }
}
