//! Which programs some text spells, as a function that does nothing when it is called.

ghost use Rattle.std.specs.Prelude.{◌≡◌, ◌↔◌};
ghost use Rattle.alf_program.specs.Tree.{WholeProgram};
ghost use Rattle.alf_program.specs.Writable.{IsWritable};
ghost use Rattle.alf_text.specs.Canonical.{canonical_text};
ghost use Rattle.alf_text.specs.Language.{IsSpelled, SpellsProgram};

use alf_tokens::printed_texts_are_cut;

/// Some text spells a program exactly where the program is writable, a condition on programs alone.
/// Then its canonical text does, and spells nothing else.
pub fn writable_programs_are_spelled()
    ensures exactly { (whole : WholeProgram) → IsSpelled whole ↔ IsWritable whole }
    ensures canonical { (whole : WholeProgram) → IsWritable whole → SpellsProgram (canonical_text whole) whole }
    ensures alone { (whole other : WholeProgram) → IsWritable whole → SpellsProgram (canonical_text whole) other
        → other ≡ whole }
{
    printed_texts_are_cut();
}
