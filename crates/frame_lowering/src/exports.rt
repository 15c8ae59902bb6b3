//! The frames that are exported: those of the global integers, in order.

ghost use Rattle.std.specs.Prelude.{◌≡◌, ◌++◌, map, IfOk, OnOk};
ghost use Rattle.c_unit.specs.Tree.{declarator_of, external_of};
ghost use Rattle.c_meaning.specs.Objects.{integers_declared, integers_in};
ghost use Rattle.c_lowered.specs.Names.{frame_of};
ghost use Rattle.object_layout.specs.Views.{program_in};

use c_unit::{Declarator, External, Shape};
use flow_base::Name;
use object_layout::Table;
use std::alloc::{AllocError, Global};

/// The names of the frames of the global integers.
pub fn exports_of(
    alloc: Global,
    table: &Table<'_>,
    externals: &[External],
) -> Result<Vec<Name>, AllocError>
    ensures { IfOk result
        (λ names. names.items ≡ map (frame_of (program_in table.now)) (integers_in (map external_of externals.now))) }
{
    let mut names = Vec::new(alloc);
    let mut rest = externals;
    'externals: while let Some((external, others)) = rest.split_first() {
        match external {
            External::Declare(_, _, declarators) => put_exports(
                alloc,
                table,
                &mut names,
                declarators,
            )?,
            External::Define(_, _, _, _, _) => {}
        }
        rest = others;
    }
    Ok(names)
}

// Puts those that are declared together.
fn put_exports(
    alloc: Global,
    table: &Table<'_>,
    names: &mut Vec<Name>,
    declarators: &[Declarator],
) -> Result<(), AllocError>
    ensures { OnOk result
        (names.new.items
        ≡ names.old.items
        ++ map (frame_of (program_in table.now)) (integers_declared (map declarator_of declarators.now))) }
{
    let mut rest = declarators;
    'declarators: while let Some((declarator, others)) = rest.split_first() {
        match declarator.shape {
            Shape::Integer(_) => names.push(Name::new(alloc, table.frame_of(declarator.name))?)?,
            Shape::Array(_, _) => {}
            Shape::Function(_) => {}
        }
        rest = others;
    }
    Ok(())
}
