//! One call.

ghost use Rattle.std.specs.Prelude.{◌≡◌, ◌<◌, ◌^◌, ◌++◌, ◌∷◌, [], length, OnOk};
ghost use Rattle.c_rules.specs.Recursion.{numbers_at};

use c_scopes::Definitions;
use std::alloc::AllocError;

/// Notes the function whose name stands at the token, if it is defined.
pub fn note(functions: &Definitions<'_>, row: &mut Vec<u32>, token: u32) -> Result<(), AllocError>
    requires { length functions.now.names < 2 ^ 32 }
    ensures { OnOk result
        (row.new.items ≡ row.old.items ++ numbers_at functions.now.words functions.now.names (token ∷ [])) }
{
    match functions.number_at(token) {
        Some(number) => {
            row.push(number as u32)?;
        }
        None => {}
    }
    Ok(())
}
