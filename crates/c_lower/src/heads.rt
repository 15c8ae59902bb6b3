//! What is known at file level, and in functions.

ghost use Rattle.std.specs.Prelude.{◌≡◌, ◌∷◌, [], map, IfOk, OnOk};
ghost use Rattle.c_unit.specs.Tree.{declarator_of, shape_of};
ghost use Rattle.c_rules.specs.Units as units;
ghost use Rattle.c_scopes.specs.Views.{bound_of};
ghost use Rattle.c_lower.specs.Heads.{with_declarators, with_head, with_named, with_params};

use c_scopes::{Bound, Scopes};
use c_unit::{Declarator, Integer, Outcome, Parameter, Scalar, Shape};
use std::alloc::{AllocError, Global};

// The types of parameters.
fn types_of(alloc: Global, parameters: &[Parameter]) -> Result<Vec<Scalar>, AllocError>
    ensures { IfOk result (λ types. types.items ≡ units.types_of parameters.now) }
{
    let mut types = Vec::new(alloc);
    for parameter in parameters {
        types.push(parameter.kind)?;
    }
    Ok(types)
}

// What a name at file level is bound to.
fn global_bound(alloc: Global, given: Outcome, shape: &Shape) -> Result<Bound, AllocError>
    ensures { IfOk result (λ bound. bound_of bound ≡ units.global_bound given (shape_of shape.now)) }
{
    let kind = match given {
        Outcome::Nothing => Integer::Int,
        Outcome::Integer(kind) => kind,
    };
    match shape {
        Shape::Integer(_) => Ok(Bound::Variable(Scalar::Integer(kind))),
        Shape::Array(_, _) => Ok(Bound::Array(kind)),
        Shape::Function(parameters) => {
            let types = types_of(alloc, parameters)?;
            Ok(Bound::Function(given, types))
        }
    }
}

/// What a declaration at file level declares is known.
pub fn declare(
    alloc: Global,
    scopes: &mut Scopes<'_>,
    given: Outcome,
    declarators: &[Declarator],
) -> Result<(), AllocError>
    ensures { OnOk result (scopes.new ≡ with_declarators given (map declarator_of declarators.now) scopes.old) }
{
    let mut rest = declarators;
    'declarators: while let Some((declarator, others)) = rest.split_first() {
        let bound = global_bound(alloc, given, &declarator.shape)?;
        scopes.declare(declarator.name, bound)?;
        rest = others;
    }
    Ok(())
}

// A parameter is known in the innermost scope, if it has a name.
fn declare_parameter(scopes: &mut Scopes<'_>, parameter: &Parameter) -> Result<(), AllocError>
    ensures { OnOk result (scopes.new ≡ with_named parameter.now.name parameter.now.kind scopes.old) }
{
    match parameter.name {
        Some(name) => scopes.declare(name, Bound::Variable(parameter.kind)),
        None => Ok(()),
    }
}

// Parameters are known in the innermost scope.
fn declare_parameters(scopes: &mut Scopes<'_>, parameters: &[Parameter]) -> Result<(), AllocError>
    ensures { OnOk result (scopes.new ≡ with_params parameters.now scopes.old) }
{
    let mut rest = parameters;
    'parameters: while let Some((parameter, others)) = rest.split_first() {
        declare_parameter(scopes, parameter)?;
        rest = others;
    }
    Ok(())
}

/// A function is known, and its parameters in a scope of their own.
pub fn enter_function(
    alloc: Global,
    scopes: &mut Scopes<'_>,
    given: Outcome,
    name: u32,
    parameters: &[Parameter],
) -> Result<(), AllocError>
    ensures { OnOk result (scopes.new ≡ with_head given name parameters.now scopes.old) }
{
    let types = types_of(alloc, parameters)?;
    scopes.declare(name, Bound::Function(given, types))?;
    scopes.enter()?;
    declare_parameters(scopes, parameters)?;
    Ok(())
}
