//! What functions give and take.

ghost use Rattle.std.specs.Prelude.{◌≡◌, map, IfOk};
ghost use Rattle.c_unit.specs.Tree.{external_of};
ghost use Rattle.object_layout.specs.Views.{signature_of, signatures_of};

use c_unit::{External, Outcome, Parameter};
use std::alloc::{AllocError, Global};

/// What a function gives, and its parameters.
#[derive(Clone, Copy)]
pub struct Signature<'a> {
    pub result: Outcome,
    pub parameters: &'a [Parameter],
}

/// Those of the functions that are defined, in order.
pub fn signatures<'a>(
    alloc: Global,
    externals: &'a [External],
) -> Result<Vec<Signature<'a>>, AllocError>
    ensures { IfOk result (λ all. map signature_of all.items ≡ signatures_of (map external_of externals.now)) }
{
    let mut all = Vec::new(alloc);
    let mut rest = externals;
    'externals: while let Some((external, others)) = rest.split_first() {
        match external {
            External::Declare(_, _, _) => {}
            External::Define(_, result, _, parameters, _) => {
                all.push(Signature {
                    result: *result,
                    parameters,
                })?;
            }
        }
        rest = others;
    }
    Ok(all)
}
