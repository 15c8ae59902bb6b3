//! Who calls whom.

ghost use Rattle.std.specs.Prelude.{◌≡◌, ◌<◌, ◌^◌, ◌++◌, ◌∷◌, [], map, length, IfOk, OnOk};
ghost use Rattle.c_unit.specs.Tree.{statement_of, statements_of, external_of};
ghost use Rattle.c_rules.specs.Recursion.{called_in, numbers_at, rows_of};
ghost use Rattle.graph_walks.specs.Calls.{calls_of};

use crate::call_statements::note_statements;
use c_scopes::Definitions;
use c_unit::{External, Stmt};
use std::alloc::{AllocError, Global};

/// For each function that is defined the numbers of those that it calls, in the order of the text.
pub fn call_table(
    alloc: Global,
    functions: &Definitions<'_>,
    externals: &[External],
) -> Result<Vec<Vec<u32>>, AllocError>
    requires { length functions.now.names < 2 ^ 32 }
    ensures { IfOk result
        (λ rows. calls_of rows.items
        ≡ rows_of functions.now.words functions.now.names (map external_of externals.now)) }
{
    let mut rows = Vec::new(alloc);
    for external in externals {
        note_external(alloc, functions, &mut rows, external)?;
    }
    Ok(rows)
}

// Notes the calls of the function, if one is defined here.
fn note_external(
    alloc: Global,
    functions: &Definitions<'_>,
    rows: &mut Vec<Vec<u32>>,
    external: &External,
) -> Result<(), AllocError>
    requires { length functions.now.names < 2 ^ 32 }
    ensures { OnOk result
        (calls_of rows.new.items
        ≡ calls_of rows.old.items ++ rows_of functions.now.words functions.now.names (external_of external.now ∷ [])) }
{
    match external {
        External::Declare(_, _, _) => {}
        External::Define(_, _, _, _, body) => {
            let row = calls_in_body(alloc, functions, body)?;
            rows.push(row)?;
        }
    }
    Ok(())
}

// The functions that are called in a body.
fn calls_in_body(
    alloc: Global,
    functions: &Definitions<'_>,
    body: &[Stmt],
) -> Result<Vec<u32>, AllocError>
    requires { length functions.now.names < 2 ^ 32 }
    ensures { IfOk result
        (λ row. row.items
        ≡ numbers_at functions.now.words functions.now.names (called_in (statements_of (map statement_of body.now)))) }
{
    let mut row = Vec::new(alloc);
    note_statements(functions, &mut row, body)?;
    Ok(row)
}
