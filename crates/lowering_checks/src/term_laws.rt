//! What lowered expressions promise.

ghost use Rattle.std.specs.Prelude.{ℕ, List};
ghost use Rattle.alf_program.specs.Tree.{Function, WholeProgram};
ghost use Rattle.c_unit.specs.Tree.{Expression};
ghost use Rattle.c_rules.specs.Names.{Scope, worth_of_text};
ghost use Rattle.c_meaning.specs.Objects.{Program};
ghost use Rattle.c_lowered.specs.Values.{value_of, address_of};
ghost use Rattle.lowering_checks.specs.Terms.{Term};
ghost use Rattle.lowering_checks.specs.Constants.{Fits};
ghost use Rattle.lowering_checks.specs.Values.{NamesStand, ScopesUsable, deep};

/// The value of an expression whose names are objects that the function sees has 32 bits, is at most 3 deep and 5
/// more for each nested operator, can be written, and names frames that the function sees; so has its address.
pub fn values_are_terms()
    ensures values { (whole : WholeProgram) (func : Function) (program : Program) (scopes : List Scope)
        → ScopesUsable whole func program scopes → (e : Expression) → NamesStand program.words scopes e
        → Term whole func 32 (deep e) (value_of program scopes e) }
    ensures addresses { (whole : WholeProgram) (func : Function) (program : Program) (scopes : List Scope)
        → ScopesUsable whole func program scopes → (e : Expression) → NamesStand program.words scopes e
        → Term whole func 32 (deep e) (address_of program scopes e) }
{}

/// A constant is a word of 32 bits, whatever its text.
pub fn constants_are_words()
    ensures { (text : List ℕ) → Fits (worth_of_text text) }
{}
