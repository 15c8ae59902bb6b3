//! What the definitions promise of printing back, as a function that does nothing when it is called.

ghost use Rattle.alf_text.specs.CanonicalLaws.{CanonicalTextsSpell};

use crate::writable::writable_programs_are_spelled;

/// What some text spells, its canonical text spells.
pub fn canonical_texts_are_read_back()
    ensures spelled { CanonicalTextsSpell }
{
    writable_programs_are_spelled();
}
