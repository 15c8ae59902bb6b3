//! What declarations of functions promise.

ghost use Rattle.std.specs.Prelude.{◌≡◌, ℕ, Some, slice_get};
ghost use Rattle.c_unit.specs.Units.{UnitTree};
ghost use Rattle.c_rules.specs.UnitsStand.{UnitStands};
ghost use Rattle.c_meaning.specs.Objects.{Function, functions_of};
ghost use Rattle.lowering_layout.specs.Declared.{EachScope, EntryAgrees};

/// In a unit that keeps the rules each entry that a function's block sees has the type of the function that is
/// defined under its name, whether it is declared before or after the definition.
pub fn declarations_agree_with_definitions()
    ensures { (unit : UnitTree) → UnitStands unit → (k : ℕ) (block : Function)
        → slice_get (functions_of unit) k ≡ Some block → EachScope (EntryAgrees unit) block.scopes }
{}
