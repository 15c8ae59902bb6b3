//! What lowered programs promise.

ghost use Rattle.std.specs.Prelude.{ℕ, List};
ghost use Rattle.alf_program.specs.Writable.{IsWritable};
ghost use Rattle.alf_check.specs.Checking.{Passes};
ghost use Rattle.c_unit.specs.Units.{UnitTree};
ghost use Rattle.c_rules.specs.Programs.{IsProgram};
ghost use Rattle.c_meaning.specs.Objects.{program_of};
ghost use Rattle.c_lowered.specs.Programs.{lowered};
ghost use Rattle.lowering_layout.specs.Spelled.{HasNames};
ghost use Rattle.lowering_checks.specs.Functions.{IsMeasured};

use alf_faults::no_fault_is_by_parts;
use graph_walks::ranked_calls_have_no_cycle;

/// The lowered program of a unit that the checks pass, whose names and sizes are within what the grammar allows,
/// can be written, and passes the checks of ALF with the same root.
pub fn measured_programs_pass()
    ensures written { (unit : UnitTree) (root ranks : List ℕ) → IsProgram unit root ranks
        → (names : HasNames (program_of unit)) → IsMeasured unit names → IsWritable (lowered unit) }
    ensures passes { (unit : UnitTree) (root ranks : List ℕ) → IsProgram unit root ranks
        → (names : HasNames (program_of unit)) → IsMeasured unit names → Passes (lowered unit) root }
{
    no_fault_is_by_parts();
    ranked_calls_have_no_cycle();
}
