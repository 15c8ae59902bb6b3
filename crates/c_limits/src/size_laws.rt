//! What counts say of sizes.

ghost use Rattle.std.specs.Prelude.{◌≤◌, length};
ghost use Rattle.std.specs.List.{sum_by};
ghost use Rattle.alf_program.specs.Writable.{frame_bytes, frames_of, most_frames, most_bytes_of_frames};
ghost use Rattle.c_unit.specs.Limits.{most_functions};
ghost use Rattle.c_unit.specs.Units.{UnitTree};
ghost use Rattle.c_meaning.specs.Objects.{Function, objects_of, functions_of};
ghost use Rattle.c_lowered.specs.Programs.{lowered};
ghost use Rattle.c_rules.specs.SpelledExpressions.{InStatements};
ghost use Rattle.c_rules.specs.SpelledUnits.{Shallow, IsCounted};
ghost use Rattle.lowering_layout.specs.Lists.{EachOf};
ghost use Rattle.lowering_layout.specs.Texts.{IsIdentifier};
ghost use Rattle.c_limits.specs.Objects.{IsSmall};

/// An object of a counted unit has at most 262144 bits, the block of a function nests at most ten operators, and
/// its functions are no more than a text may define.
pub fn counted_units_are_small()
    ensures objects { (unit : UnitTree) → IsCounted IsIdentifier unit → EachOf IsSmall (objects_of unit) }
    ensures blocks { (unit : UnitTree) → IsCounted IsIdentifier unit
        → EachOf (λ (f : Function). InStatements Shallow Shallow f.body) (functions_of unit) }
    ensures functions { (unit : UnitTree) → IsCounted IsIdentifier unit → length (functions_of unit) ≤ most_functions }
{}

/// The frames of the lowered program have no more bytes in all than a program may have, where they are no more than it
/// may have.
pub fn lowered_programs_have_few_bytes()
    ensures { (unit : UnitTree) → IsCounted IsIdentifier unit → length (frames_of (lowered unit)) ≤ most_frames
        → sum_by frame_bytes (frames_of (lowered unit)) ≤ most_bytes_of_frames }
{}
