//! What the definitions promise, as a function that does nothing when it is called.

ghost use Rattle.c_text.specs.Laws.{EachSpelledUnitCanBePrinted, PrintedUnitsAreReadBack, SpelledWhereReadable};

use crate::spelling_laws::{spelled_tokens_can_be_printed, tokens_are_numbered_by_their_texts};
use c_tokens::{printed_texts_are_cut, tokens_are_known_by_their_texts};

/// Each token of a unit that some text spells can be printed, and what is printed spells the unit
/// again, but for places. Some text spells a unit, but for places, exactly where the unit is readable,
/// a condition on units alone.
pub fn spelled_units_are_read_back()
    ensures printed { EachSpelledUnitCanBePrinted }
    ensures again { PrintedUnitsAreReadBack }
    ensures exactly { SpelledWhereReadable }
{
    printed_texts_are_cut();
    tokens_are_known_by_their_texts();
    spelled_tokens_can_be_printed();
    tokens_are_numbered_by_their_texts();
}
