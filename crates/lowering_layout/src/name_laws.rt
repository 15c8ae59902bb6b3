//! What names promise.

ghost use Rattle.std.specs.Prelude.{◌≡◌, ◌≢◌, ◌<◌, ◌^◌, ℕ, List, Some, length, slice_get};
ghost use Rattle.alf_program.specs.Writable.{IsName, frames_of};
ghost use Rattle.c_unit.specs.Units.{UnitTree};
ghost use Rattle.c_rules.specs.Programs.{IsProgram};
ghost use Rattle.c_meaning.specs.Objects.{Object, Function, Program, program_of};
ghost use Rattle.c_lowered.specs.Names.{function_name, label_name, call_name, name_at};
ghost use Rattle.c_lowered.specs.Programs.{lowered};
ghost use Rattle.lowering_layout.specs.Lists.{Apart};
ghost use Rattle.lowering_layout.specs.Spelled.{NamesAreSpelled, HasNames};
ghost use Rattle.lowering_layout.specs.PartFrames.{DifferInName};
ghost use Rattle.lowering_layout.specs.Views.{View, globals};

/// A unit that the checks pass, and whose names are as the grammar has them, has names that differ.
pub fn spelled_programs_have_names()
    ensures { (unit : UnitTree) (root ranks : List ℕ) → IsProgram unit root ranks → NamesAreSpelled unit
        → HasNames (program_of unit) }
{}

/// No two frames of the lowered program have one name.
pub fn all_frames_have_names_of_their_own()
    ensures { (unit : UnitTree) → HasNames (program_of unit) → Apart DifferInName (frames_of (lowered unit)) }
{}

/// The frames that a function sees are those of the globals, of its parameters and locals, and of the results of
/// its calls, one for each.
pub fn each_frame_is_an_objects_or_a_results()
    ensures { (unit : UnitTree) (names : HasNames (program_of unit)) (f : ℕ) (function : Function)
        → slice_get (program_of unit).functions f ≡ Some function
        → View (program_of unit) (globals unit names) f function }
{}

/// Labels tell their functions and their numbers, and none is the name of a function.
pub fn labels_are_told_apart()
    ensures told { (program : Program) → HasNames program → (f g k l : ℕ) → f < length program.functions
        → g < length program.functions → k < 10 ^ 64 → l < 10 ^ 64 → label_name program f k ≡ label_name program g l
        → (f ≡ g) × (k ≡ l) }
    ensures alone { (program : Program) → HasNames program → (f g k : ℕ) → f < length program.functions
        → g < length program.functions → function_name program g ≢ label_name program f k }
{}

/// Names of functions, labels, results and objects are names of ALF.
pub fn names_can_be_written()
    ensures functions { (program : Program) → HasNames program → (f : ℕ) → f < length program.functions
        → IsName (function_name program f) }
    ensures labels { (program : Program) → HasNames program → (f k : ℕ) → f < length program.functions → k < 2 ^ 64
        → IsName (label_name program f k) }
    ensures results { (program : Program) → HasNames program → (f k : ℕ) → f < length program.functions → k < 2 ^ 64
        → IsName (call_name program f k) }
    ensures objects { (program : Program) → HasNames program → (i : ℕ) (o : Object)
        → slice_get program.objects i ≡ Some o → IsName (name_at program i) }
{}
