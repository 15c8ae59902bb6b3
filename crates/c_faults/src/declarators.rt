//! Declarators at file level.

ghost use Rattle.std.specs.Prelude.{◌≡◌, ◌∷◌, ◌++◌, [], map, OnOk};
ghost use Rattle.std.specs.Option.{option_map};
ghost use Rattle.c_unit.specs.Tree.{declarator_of};
ghost use Rattle.c_rules.specs.Names.{innermost, Array};
ghost use Rattle.c_rules.specs.Statements.{twice_faults, array_faults};
ghost use Rattle.c_rules.specs.Units as units;
ghost use Rattle.c_scopes.specs.Views.{bound_of, declared_in};
ghost use Rattle.c_faults.specs.Tells.{Tells};
ghost use Rattle.c_faults.specs.Files.{IsFile, declarator_faults, declarators_faults, with_declarators};

use crate::arrays::check_array;
use crate::heads::check_head;
use crate::stop::Stop;
use c_scopes::{Bound, Fault, Scopes};
use c_unit::{Constant, Declarator, Integer, Outcome, Scalar, Shape};
use std::alloc::Global;

/// The first fault of what a declaration at file level declares. Where there is none the names stand in the file's
/// scope.
pub fn check_declarators(
    alloc: Global,
    scopes: &mut Scopes<'_>,
    first: u32,
    given: Outcome,
    declarators: &[Declarator],
) -> Result<(), Stop>
    requires { IsFile scopes.old }
    ensures tells { Tells result (declarators_faults scopes.old first given (map declarator_of declarators.now)) }
    ensures known { OnOk result (scopes.new ≡ with_declarators given (map declarator_of declarators.now) scopes.old) }
{
    let mut rest = declarators;
    'declarators: while let Some((declarator, others)) = rest.split_first() {
        check_declarator(alloc, scopes, first, given, declarator)?;
        rest = others;
    }
    Ok(())
}

// The same of one.
fn check_declarator(
    alloc: Global,
    scopes: &mut Scopes<'_>,
    first: u32,
    given: Outcome,
    declarator: &Declarator,
) -> Result<(), Stop>
    requires { IsFile scopes.old }
    ensures tells { Tells result (declarator_faults scopes.old first given (declarator_of declarator.now)) }
    ensures known { OnOk result (scopes.new ≡ with_declarators given (declarator_of declarator.now ∷ []) scopes.old) }
{
    let name = declarator.name;
    let kind = element_of(given);
    match &declarator.shape {
        Shape::Integer(_) => declare_object(scopes, name, Bound::Variable(Scalar::Integer(kind))),
        Shape::Array(size, firsts) => declare_array(scopes, name, kind, *size, firsts),
        Shape::Function(params) => {
            check_head(alloc, scopes, first, given, name, params)?;
            scopes.leave()?;
            Ok(())
        }
    }
}

// The type of a global or its elements.
fn element_of(given: Outcome) -> Integer
    ensures { result ≡ units.element_of given }
{
    match given {
        Outcome::Nothing => Integer::Int,
        Outcome::Integer(kind) => kind,
    }
}

// An object, whose name is new in its scope.
fn declare_object(scopes: &mut Scopes<'_>, name: u32, bound: Bound) -> Result<(), Stop>
    ensures tells { Tells result (twice_faults scopes.old.words (innermost scopes.old.scopes) name) }
    ensures known { OnOk result
        (scopes.new ≡ declared_in (record { token = name; bound = bound_of bound }) scopes.old) }
{
    if scopes.is_declared(name) {
        return Err(Stop::Fault(Fault::Duplicate(name)));
    }
    scopes.declare(name, bound)?;
    Ok(())
}

// An array, with what its first elements hold at first.
fn declare_array(
    scopes: &mut Scopes<'_>,
    name: u32,
    kind: Integer,
    size: u32,
    firsts: &Option<Vec<Constant>>,
) -> Result<(), Stop>
    ensures tells { Tells result
        (twice_faults scopes.old.words (innermost scopes.old.scopes) name
        ++ array_faults scopes.old.words size (option_map (λ constants. constants.items) firsts.now)) }
    ensures known { OnOk result (scopes.new ≡ declared_in (record { token = name; bound = Array kind }) scopes.old) }
{
    declare_object(scopes, name, Bound::Array(kind))?;
    check_array(scopes.words(), size, firsts)?;
    Ok(())
}
