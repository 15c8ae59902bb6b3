//! What lowering promises.

ghost use Rattle.std.specs.Prelude.{ℕ, List};
ghost use Rattle.alf_program.specs.Writable.{IsWritable};
ghost use Rattle.alf_check.specs.Checking.{Passes};
ghost use Rattle.c_unit.specs.Units.{UnitTree};
ghost use Rattle.c_rules.specs.Programs.{IsProgram};
ghost use Rattle.c_text.specs.Language.{IsSpelled};
ghost use Rattle.c_lowered.specs.Programs.{lowered};
ghost use Rattle.object_layout.specs.Room.{HasRoom};
ghost use Rattle.c_lower.specs.Measured.{HasFewLabels};
ghost use Rattle.c_lower.specs.Passing.{SpelledProgramsAreWritten, SpelledProgramsPass, SpelledProgramsHaveFewNumbers};

use c_limits::{
    counted_units_have_few_frames, counted_units_have_spelled_names, spelled_units_are_counted,
    spelled_units_have_few_labels,
};
use lowering_checks::measured_programs_pass;

/// The lowered program of a unit that some text spells and that the checks pass can be written, and passes the
/// checks of ALF with the same root, where no function has 2 to 64 labels or more.
pub fn lowered_programs_pass()
    ensures written { (unit : UnitTree) (root ranks : List ℕ) → IsProgram unit root ranks → IsSpelled unit
        → HasFewLabels unit → IsWritable (lowered unit) }
    ensures passes { (unit : UnitTree) (root ranks : List ℕ) → IsProgram unit root ranks → IsSpelled unit
        → HasFewLabels unit → Passes (lowered unit) root }
{
    spelled_units_are_counted();
    counted_units_have_spelled_names();
    counted_units_have_few_frames();
    measured_programs_pass();
}

/// A unit that some text spells has room for sizes and numbers, by the limits of texts.
pub fn spelled_units_have_room()
    ensures { (unit : UnitTree) → IsSpelled unit → HasRoom unit }
{
    spelled_units_are_counted();
}

/// So it is with each unit that a text of fewer than 2^62 tokens spells and that the checks pass.
pub fn spelled_programs_pass()
    ensures written { SpelledProgramsAreWritten }
    ensures passes { SpelledProgramsPass }
{
    spelled_units_have_few_labels();
    lowered_programs_pass();
}

/// In each such unit 64 bits have the number of each label and of each call.
pub fn spelled_programs_have_few_numbers()
    ensures { SpelledProgramsHaveFewNumbers }
{
    spelled_units_are_counted();
    counted_units_have_spelled_names();
    spelled_units_have_few_labels();
}
