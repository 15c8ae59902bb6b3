//! The canonical text of a unit, which spells it.

ghost use Rattle.std.specs.Prelude.{◌≡◌, IfOk};
ghost use Rattle.c_tokens.specs.Printed.{printed_text};
ghost use Rattle.c_unit.specs.Units.{unit_of};
ghost use Rattle.c_unit.specs.Texts.{texts_of};
ghost use Rattle.c_text.specs.Language.{IsSpelled};
ghost use Rattle.c_text.specs.Laws.{IsReadBack};

use crate::laws::spelled_units_are_read_back;
use c_unit::CUnit;
use std::alloc::{AllocError, Global};

/// The canonical text of a unit, which is read as the same unit but for places.
///
/// The tokens stand as they were spelled, with one space between two of them and one line feed at the
/// end. Takes memory for the text, and time in proportion to it.
pub fn print(alloc: Global, unit: &CUnit) -> Result<Vec<u8>, AllocError>
    ensures text { IfOk result (λ text. text.items ≡ printed_text (texts_of (unit_of unit.now))) }

    // Where the unit was read from a text, the text printed is read as the same unit but for places.
    ensures spelled { IsSpelled (unit_of unit.now)
        → IfOk result (λ text. IsReadBack (unit_of unit.now) text.items) }
{
    spelled_units_are_read_back();
    let text = c_unit::print(alloc, unit)?;
    Ok(text)
}
