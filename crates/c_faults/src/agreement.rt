//! Types of functions that are declared more than once.

ghost use Rattle.std.specs.Prelude.{◌≡◌};
ghost use Rattle.c_rules.specs.Names.{look_up};
ghost use Rattle.c_rules.specs.Units as units;
ghost use Rattle.c_scopes.specs.Views.{bound_of};
ghost use Rattle.c_faults.specs.Files.{agrees_with, is_free};

use c_scopes::{Bound, Scopes, same_outcome, same_scalar};
use c_unit::{Outcome, Scalar};

/// Whether a function of this name may give and take this: it had the same type before.
pub fn agrees(scopes: &Scopes<'_>, name: u32, given: Outcome, types: &[Scalar]) -> bool
    ensures { result ≡ agrees_with given types.now (look_up scopes.now.words scopes.now.scopes name) }
{
    match scopes.look_up(name) {
        Some(entry) => is_of_type(&entry.bound, given, types),
        None => true,
    }
}

/// Whether a function may have this name: no object has it.
pub fn is_free(scopes: &Scopes<'_>, name: u32) -> bool
    ensures { result ≡ is_free (look_up scopes.now.words scopes.now.scopes name) }
{
    match scopes.look_up(name) {
        Some(entry) => is_function(&entry.bound),
        None => true,
    }
}

// Whether the name is that of a function.
fn is_function(bound: &Bound) -> bool
    ensures { result ≡ units.is_function (bound_of bound.now) }
{
    match bound {
        Bound::Variable(_) => false,
        Bound::Array(_) => false,
        Bound::Function(_, _) => true,
    }
}

// Whether a function has this type; what an object is does not count here.
fn is_of_type(bound: &Bound, given: Outcome, types: &[Scalar]) -> bool
    ensures { result ≡ units.is_of_type given types.now (bound_of bound.now) }
{
    match bound {
        Bound::Variable(_) => true,
        Bound::Array(_) => true,
        Bound::Function(before, others) => same_outcome(*before, given)
            && same_types(others, types),
    }
}

// Whether the types are the same, one by one.
fn same_types(before: &[Scalar], types: &[Scalar]) -> bool
    ensures { result ≡ units.same_types before.now types.now }
{
    let mut before = before;
    let mut types = types;
    while let Some((first, others)) = before.split_first() {
        let Some((second, further)) = types.split_first() else {
            return false;
        };
        if !same_scalar(*first, *second) {
            return false;
        }
        before = others;
        types = further;
    }
    types.is_empty()
}
