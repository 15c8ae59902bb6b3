//! Locals of functions, in the order of the text.

ghost use Rattle.std.specs.Prelude.{◌≡◌, ◌≤◌, [], ◌∷◌, ◌++◌, map, OnOk};
ghost use Rattle.c_unit.specs.Limits.{most_elements};
ghost use Rattle.c_unit.specs.Tree.{local_of, statement_of, statements_of};
ghost use Rattle.c_rules.specs.Counts.{elements_of, elements_of_all, elements_in, all_elements_in};
ghost use Rattle.c_meaning.specs.Objects as meaning;
ghost use Rattle.object_layout.specs.Views.{object_of};

use crate::object::Object;
use crate::sizes::bits_of_local;
use c_scopes::Words;
use c_unit::{Integer, Local, Stmt};
use std::alloc::AllocError;

/// Puts what statements in a row declare.
#[cycle(locals)]
pub fn put_all_locals(
    words: &Words<'_>,
    owner: u32,
    objects: &mut Vec<Object>,
    row: &[Stmt],
) -> Result<(), AllocError>
    requires few { all_elements_in words.now (statements_of (map statement_of row.now)) ≤ most_elements }
    ensures { OnOk result
        (map object_of objects.new.items
        ≡ map object_of objects.old.items
        ++ meaning.all_locals_in words.now owner (statements_of (map statement_of row.now))) }
{
    for statement in row {
        put_locals(words, owner, objects, statement)?;
    }
    Ok(())
}

// Puts what a statement declares.
#[cycle(locals)]
fn put_locals(
    words: &Words<'_>,
    owner: u32,
    objects: &mut Vec<Object>,
    statement: &Stmt,
) -> Result<(), AllocError>
    requires few { elements_in words.now (statement_of statement.now) ≤ most_elements }
    ensures { OnOk result
        (map object_of objects.new.items
        ≡ map object_of objects.old.items ++ meaning.locals_in words.now owner (statement_of statement.now)) }
{
    match statement {
        Stmt::Declare(_, kind, locals) => put_declared(words, owner, objects, *kind, locals),
        Stmt::Block(body) => put_all_locals(words, owner, objects, body),
        Stmt::If(_, body, otherwise) => match otherwise {
            None => put_locals(words, owner, objects, body),
            Some(otherwise) => {
                put_locals(words, owner, objects, body)?;
                put_locals(words, owner, objects, otherwise)?;
                Ok(())
            }
        },
        Stmt::While(_, body) => put_locals(words, owner, objects, body),
        Stmt::Do(body, _) => put_locals(words, owner, objects, body),
        Stmt::For(first, _, _, body) => match first {
            None => put_locals(words, owner, objects, body),
            Some(first) => {
                put_locals(words, owner, objects, first)?;
                put_locals(words, owner, objects, body)?;
                Ok(())
            }
        },
        Stmt::Switch(_, body) => put_all_locals(words, owner, objects, body),
        Stmt::Empty(_) => Ok(()),
        Stmt::Case(_, _) => Ok(()),
        Stmt::Default(_) => Ok(()),
        Stmt::Break(_) => Ok(()),
        Stmt::Continue(_) => Ok(()),
        Stmt::Return(_, _) => Ok(()),
        Stmt::Effect(_) => Ok(()),
    }
}

// Puts locals that are declared together.
fn put_declared(
    words: &Words<'_>,
    owner: u32,
    objects: &mut Vec<Object>,
    kind: Integer,
    locals: &[Local],
) -> Result<(), AllocError>
    requires few { elements_of_all words.now (map local_of locals.now) ≤ most_elements }
    ensures { OnOk result
        (map object_of objects.new.items
        ≡ map object_of objects.old.items
        ++ map (meaning.local_object words.now owner kind) (map local_of locals.now)) }
{
    for local in locals {
        put_local(words, owner, objects, kind, local)?;
    }
    Ok(())
}

// Puts a local.
fn put_local(
    words: &Words<'_>,
    owner: u32,
    objects: &mut Vec<Object>,
    kind: Integer,
    local: &Local,
) -> Result<(), AllocError>
    requires few { elements_of words.now (local_of local.now).shape ≤ most_elements }
    ensures { OnOk result
        (map object_of objects.new.items
        ≡ map object_of objects.old.items ++ meaning.local_object words.now owner kind (local_of local.now) ∷ []) }
{
    objects.push(Object {
        token: local.name,
        owner: Some(owner),
        bits: bits_of_local(words, kind, &local.shape),
    })?;
    Ok(())
}
