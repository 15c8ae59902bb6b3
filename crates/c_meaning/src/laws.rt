//! What the definitions promise.

ghost use Rattle.std.specs.Prelude.{◌≡◌, ◌≢◌, ◌≤◌, ℕ, List, length};
ghost use Rattle.c_unit.specs.Units.{UnitTree};
ghost use Rattle.c_rules.specs.Programs.{IsProgram};
ghost use Rattle.c_meaning.specs.Objects.{functions_of};
ghost use Rattle.c_meaning.specs.Programs.{Cell, Unfinished, ending_within, ending, outcome};

/// An outcome that is known with some number of turns is that with each greater number.
pub fn more_turns_keep_an_outcome()
    ensures { (unit : UnitTree) (root : List ℕ) (n m : ℕ) (cells : List Cell) → n ≤ m
        → outcome unit root n cells ≢ Unfinished → outcome unit root m cells ≡ outcome unit root n cells }
{}

/// In a program no call is too deep: calls that nest as deep as there are functions are deep enough, and a
/// greater depth changes nothing.
pub fn no_call_is_too_deep()
    ensures { (unit : UnitTree) (name ranks : List ℕ) → IsProgram unit name ranks
        → (root n depth : ℕ) (cells : List Cell) → length (functions_of unit) ≤ depth
        → ending_within unit root n depth cells ≡ ending unit root n cells }
{}
