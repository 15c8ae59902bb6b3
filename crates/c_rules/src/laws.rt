//! What the definitions promise.

ghost use Rattle.std.specs.Prelude.{◌≡◌, ℕ, List, [], Some};
ghost use Rattle.c_unit.specs.declared.types.Scalar.{Scalar};
ghost use Rattle.c_unit.specs.Tree.{Expression};
ghost use Rattle.c_unit.specs.Units.{Word, UnitTree};
ghost use Rattle.c_rules.specs.Names.{Scope};
ghost use Rattle.c_rules.specs.Expressions.{type_of, faults_of};
ghost use Rattle.c_rules.specs.Typed.{HasType};
ghost use Rattle.c_rules.specs.UnitsStand.{UnitStands};
ghost use Rattle.c_rules.specs.Programs.{IsProgram};

/// An expression without faults has a type, and what has a type has the one that is told.
pub fn expressions_have_one_type()
    ensures some { (words : List Word) (scopes : List Scope) (e : Expression) → faults_of words scopes e ≡ []
        → (t : Scalar) × HasType words scopes e t }
    ensures told { (words : List Word) (scopes : List Scope) (e : Expression) (t : Scalar) → HasType words scopes e t
        → type_of words scopes e ≡ Some t }
{}

/// In a program each construct keeps what it asks for: operands, values and arguments suit, calls name
/// functions that are defined, and each statement has around it what it leaves.
pub fn every_program_stands()
    ensures { (unit : UnitTree) (root ranks : List ℕ) → IsProgram unit root ranks → UnitStands unit }
{}
