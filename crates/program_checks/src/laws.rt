//! The laws of checks of reports of a program.

ghost use Rattle.program_checks.specs.Checking.{HasOneCheck};
ghost use Rattle.program_checks.specs.Sound.{AcceptedAreSound};

use program_analysis::{a_program_has_one_analysis, sound_reports_are_sound_for_the_program};

/// A report of a program against which nothing speaks is sound for the program: each run from inputs inside the ranges
/// ends, meets each fact, faults only where an alarm says so, and costs at most each bound.
pub fn accepted_reports_are_sound_for_the_program()
    ensures { AcceptedAreSound }
{
    sound_reports_are_sound_for_the_program();
}

/// A report of a program has one answer, whatever parts the code has the program in.
pub fn a_report_has_one_check()
    ensures { HasOneCheck }
{
    a_program_has_one_analysis();
}
