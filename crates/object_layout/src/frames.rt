//! Names of the frames of objects.

ghost use Rattle.std.specs.Prelude.{◌≡◌, [], map, reverse, IfOk};
ghost use Rattle.c_unit.specs.Units.{unit_of};
ghost use Rattle.c_rules.specs.Units.{definitions};
ghost use Rattle.c_meaning.specs.Objects.{program_of};
ghost use Rattle.c_lowered.specs.Names as names;
ghost use Rattle.object_layout.specs.Views.{object_of};

use crate::names::owned_name;
use crate::object::Object;
use c_scopes::{Definitions, Words};
use c_unit::CUnit;
use flow_base::Name;
use std::alloc::{AllocError, Global};

// Whether the owners are the same.
fn same_owner(a: Option<u32>, b: Option<u32>) -> bool
    ensures { result ≡ names.same_owner a b }
{
    match a {
        None => match b {
            None => true,
            Some(_) => false,
        },
        Some(f) => match b {
            None => false,
            Some(g) => f == g,
        },
    }
}

// Whether the other is a declaration of the same name by the same owner.
fn is_like(words: &Words<'_>, object: Object, other: Object) -> bool
    ensures { result ≡ names.is_like words.now (object_of object) (object_of other) }
{
    same_owner(object.owner, other.owner)
        && words.text_at(object.token) == words.text_at(other.token)
}

// How many of these are.
fn count_like(words: &Words<'_>, object: Object, earlier: &[Object]) -> u64
    ensures { result ≡ names.count_like words.now (object_of object) (reverse (map object_of earlier.now)) }
{
    let mut count: u64 = 0;
    for other in earlier {
        if is_like(words, object, *other) {
            count += 1;
        }
    }
    count
}

// The name of the frame of an object, after these.
fn name_of(
    alloc: Global,
    unit: &CUnit,
    words: &Words<'_>,
    functions: &Definitions<'_>,
    earlier: &[Object],
    object: Object,
) -> Result<Name, AllocError>
    requires words { words.now ≡ (unit_of unit.now).words }
    requires functions { functions.now
        ≡ record { words = (unit_of unit.now).words; names = definitions (unit_of unit.now).externals } }
    ensures { IfOk result
        (λ name. name
        ≡ names.name_of_object (program_of (unit_of unit.now)) (reverse (map object_of earlier.now))
        (object_of object)) }
{
    let text = words.text_at(object.token);
    match object.owner {
        None => Name::new(alloc, text),
        Some(owner) => {
            let before = count_like(words, object, earlier);
            let function = functions.text_of(owner);
            let name = owned_name(alloc, function, text, before)?;
            Ok(name)
        }
    }
}

/// The names of the frames of these objects, in order.
#[tactic(auto, using(crate::proofs::Earlier::turned_more))]
pub fn frame_names(
    alloc: Global,
    unit: &CUnit,
    words: &Words<'_>,
    functions: &Definitions<'_>,
    objects: &[Object],
) -> Result<Vec<Name>, AllocError>
    requires words { words.now ≡ (unit_of unit.now).words }
    requires functions { functions.now
        ≡ record { words = (unit_of unit.now).words; names = definitions (unit_of unit.now).externals } }
    ensures { IfOk result
        (λ frames. frames.items ≡ names.names_from (program_of (unit_of unit.now)) [] (map object_of objects.now)) }
{
    let mut frames = Vec::new(alloc);
    for i in 0..objects.len() {
        let name = name_of(alloc, unit, words, functions, &objects[..i], objects[i])?;
        frames.push(name)?;
    }
    Ok(frames)
}
