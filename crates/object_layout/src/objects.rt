//! All objects of a unit: the globals, and then the parameters and locals of each function.

ghost use Rattle.std.specs.Prelude.{◌≡◌, ◌≤◌, ◌<◌, ◌+◌, ◌^◌, [], ◌∷◌, ◌++◌, List, map, length, IfOk, OnOk};
ghost use Rattle.c_unit.specs.Limits.{most_elements, most_functions};
ghost use Rattle.c_unit.specs.Tree.{declarator_of, shape_of, ExternalTree, external_of};
ghost use Rattle.c_unit.specs.Units.{unit_of};
ghost use Rattle.c_rules.specs.Units as checks;
ghost use Rattle.c_rules.specs.Units.{definitions};
ghost use Rattle.c_rules.specs.SpelledUnits.{elements_of_shape, elements_of_declarators, elements_of, all_elements_of};
ghost use Rattle.c_meaning.specs.Objects as meaning;
ghost use Rattle.object_layout.specs.Views.{object_of};
ghost use Rattle.object_layout.specs.Room.{HasRoom};

use crate::locals::put_all_locals;
use crate::object::Object;
use crate::sizes::{bits_of_array, bits_of_scalar, parameter_token};
use c_scopes::Words;
use c_unit::{CUnit, Declarator, External, Integer, Outcome, Parameter, Shape};
use operator_lowering::bits_of_type;
use std::alloc::{AllocError, Global};

/// The objects of a unit.
pub fn objects_of(alloc: Global, words: &Words<'_>, unit: &CUnit) -> Result<Vec<Object>, AllocError>
    requires words { words.now ≡ (unit_of unit.now).words }
    requires room { HasRoom (unit_of unit.now) }
    ensures { IfOk result (λ objects. map object_of objects.items ≡ meaning.objects_of (unit_of unit.now)) }
{
    let mut objects = Vec::new(alloc);
    put_globals(words, &mut objects, &unit.externals)?;
    put_owned(words, &mut objects, &unit.externals)?;
    Ok(objects)
}

// The type of a global, or of the elements of one.
fn element_of(given: Outcome) -> Integer
    ensures { result ≡ checks.element_of given }
{
    match given {
        Outcome::Nothing => Integer::Int,
        Outcome::Integer(kind) => kind,
    }
}

// Puts the globals.
fn put_globals(
    words: &Words<'_>,
    objects: &mut Vec<Object>,
    externals: &[External],
) -> Result<(), AllocError>
    requires few { all_elements_of words.now (map external_of externals.now) ≤ most_elements }
    ensures { OnOk result
        (map object_of objects.new.items
        ≡ map object_of objects.old.items ++ meaning.globals_in words.now (map external_of externals.now)) }
{
    let mut rest = externals;
    'externals: while let Some((external, others)) = rest.split_first() {
        match external {
            External::Declare(_, given, declarators) => {
                put_declared(words, objects, element_of(*given), declarators)?;
            }
            External::Define(_, _, _, _, _) => {}
        }
        rest = others;
    }
    Ok(())
}

// Puts what is declared together.
fn put_declared(
    words: &Words<'_>,
    objects: &mut Vec<Object>,
    kind: Integer,
    declarators: &[Declarator],
) -> Result<(), AllocError>
    requires few { elements_of_declarators words.now (map declarator_of declarators.now) ≤ most_elements }
    ensures { OnOk result
        (map object_of objects.new.items
        ≡ map object_of objects.old.items
        ++ meaning.globals_declared words.now kind (map declarator_of declarators.now)) }
{
    for declarator in declarators {
        put_global(words, objects, kind, declarator.name, &declarator.shape)?;
    }
    Ok(())
}

// Puts a global, if it is one and no function.
fn put_global(
    words: &Words<'_>,
    objects: &mut Vec<Object>,
    kind: Integer,
    token: u32,
    shape: &Shape,
) -> Result<(), AllocError>
    requires few { elements_of_shape words.now (shape_of shape.now) ≤ most_elements }
    ensures { OnOk result
        (map object_of objects.new.items
        ≡ map object_of objects.old.items ++ meaning.global_object words.now kind token (shape_of shape.now)) }
{
    let bits = match shape {
        Shape::Integer(_) => bits_of_type(kind),
        Shape::Array(size, _) => bits_of_array(words, kind, *size),
        Shape::Function(_) => return Ok(()),
    };
    objects.push(Object {
        token,
        owner: None,
        bits,
    })?;
    Ok(())
}

// Puts the parameters and locals of each function.
fn put_owned(
    words: &Words<'_>,
    objects: &mut Vec<Object>,
    externals: &[External],
) -> Result<(), AllocError>
    requires few { all_elements_of words.now (map external_of externals.now) ≤ most_elements }
    requires functions { length (definitions (map external_of externals.now)) ≤ most_functions }
    ensures { OnOk result
        (map object_of objects.new.items
        ≡ map object_of objects.old.items ++ meaning.owned_in words.now 0 (map external_of externals.now)) }
{
    let mut owner: u32 = 0;
    let mut rest = externals;
    'externals: while let Some((external, others)) = rest.split_first() {
        owner = put_function(words, owner, objects, external)?;
        rest = others;
    }
    Ok(())
}

// Puts the objects of a function, if this defines one, and gives the number of the next function.
fn put_function(
    words: &Words<'_>,
    owner: u32,
    objects: &mut Vec<Object>,
    external: &External,
) -> Result<u32, AllocError>
    requires few { elements_of words.now (external_of external.now) ≤ most_elements }
    requires room { owner + 1 < 2 ^ 32 }
    ensures objects { IfOk result
        (λ next. (others : List ExternalTree)
        → map object_of objects.new.items ++ meaning.owned_in words.now next others
        ≡ map object_of objects.old.items ++ meaning.owned_in words.now owner (external_of external.now ∷ others)) }
    ensures number { IfOk result
        (λ next. (others : List ExternalTree)
        → next + length (definitions others) ≡ owner + length (definitions (external_of external.now ∷ others))) }
{
    match external {
        External::Declare(_, _, _) => Ok(owner),
        External::Define(_, _, _, parameters, body) => {
            put_parameters(owner, objects, parameters)?;
            put_all_locals(words, owner, objects, body)?;
            Ok(owner + 1)
        }
    }
}

// Puts parameters.
fn put_parameters(
    owner: u32,
    objects: &mut Vec<Object>,
    parameters: &[Parameter],
) -> Result<(), AllocError>
    ensures { OnOk result
        (map object_of objects.new.items
        ≡ map object_of objects.old.items ++ map (meaning.parameter_object owner) parameters.now) }
{
    for parameter in parameters {
        put_parameter(owner, objects, parameter)?;
    }
    Ok(())
}

// Puts a parameter.
fn put_parameter(
    owner: u32,
    objects: &mut Vec<Object>,
    parameter: &Parameter,
) -> Result<(), AllocError>
    ensures { OnOk result
        (map object_of objects.new.items
        ≡ map object_of objects.old.items ++ meaning.parameter_object owner parameter.now ∷ []) }
{
    objects.push(Object {
        token: parameter_token(parameter),
        owner: Some(owner),
        bits: bits_of_scalar(parameter.kind),
    })?;
    Ok(())
}
