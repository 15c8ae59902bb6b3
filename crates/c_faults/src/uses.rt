//! How calls are used.

ghost use Rattle.std.specs.Prelude.{◌≡◌};
ghost use Rattle.c_rules.specs.Faults.{earliest};
ghost use Rattle.c_rules.specs.Calls.{use_faults};
ghost use Rattle.c_scopes.specs.FirstFault.{told};
ghost use Rattle.c_faults.specs.declared.uses.Use.TheVariants as uses;
ghost use Rattle.c_faults.specs.Uses.{use_of};

use c_scopes::{Fault, suits};
use c_unit::{Outcome, Scalar};

/// How a call is used.
#[derive(Clone, Copy, Debug)]
pub enum Use {
    /// As a statement.
    Dropped,
    /// For its value, where such a type is wanted.
    Valued(Scalar),
}

/// The first fault of the use of a call, where the function gives this: the result of a `void` function is not
/// used, and another suits what is wanted.
pub fn check_use(way: Use, given: Outcome, token: u32) -> Result<(), Fault>
    ensures told { told result ≡ earliest (use_faults (use_of way) given token) }
{
    match way {
        Use::Dropped => Ok(()),
        Use::Valued(wanted) => check_given(wanted, given, token),
    }
}

// The same, where a type is wanted.
fn check_given(wanted: Scalar, given: Outcome, token: u32) -> Result<(), Fault>
    ensures told { told result ≡ earliest (use_faults (use_of (uses.Valued wanted)) given token) }
{
    match given {
        Outcome::Nothing => Err(Fault::Mistyped(token)),
        Outcome::Integer(kind) => {
            if suits(wanted, Scalar::Integer(kind)) {
                Ok(())
            } else {
                Err(Fault::Mistyped(token))
            }
        }
    }
}
