//! What is counted while a text is read.

ghost use Rattle.std.specs.Prelude.{ℕ, List};
ghost use Rattle.c_unit.specs.Units.{Word, UnitTree};
ghost use Rattle.c_grammar.specs.declared.standing.Standing.{Standing};
ghost use Rattle.c_grammar.specs.declared.others.Others.{Others};
ghost use Rattle.c_grammar.specs.Expressions.{whole_expr, condition};
ghost use Rattle.c_grammar.specs.Statements.{standing};
ghost use Rattle.c_text.specs.Language.{IsSpelled};
ghost use Rattle.lowering_layout.specs.Texts.{IsIdentifier};
ghost use Rattle.c_rules.specs.SpelledUnits.{IsCounted};
ghost use Rattle.c_limits.specs.Measuring.{Quietly, Fits};
ghost use Rattle.c_limits.specs.Spending.{Shallow};
ghost use Rattle.c_limits.specs.Statements.{IsStanding};

use c_tokens::tokens_are_known_by_their_texts;

/// A unit that some text spells is within the limits: its frames, its elements and its functions are as few as
/// the grammar says. The tokens that declare ascend, and each is an identifier, as is the name of each function; a
/// parameter of a definition has a name; and at most ten operators are nested.
pub fn spelled_units_are_counted()
    ensures { (unit : UnitTree) → IsSpelled unit → IsCounted IsIdentifier unit }
{
    tokens_are_known_by_their_texts();
}

/// What the rules of statements spell declares locals by tokens that ascend, each of which is an identifier; each
/// local and each call of a function that gives something takes a frame; arrays take their elements; and at most
/// ten operators are nested.
pub fn statements_count_what_they_declare()
    ensures { (words : List Word) (n : ℕ) (place : Standing)
        → Fits words (standing n place).form (IsStanding words place) }
{}

/// An expression that stands in no other has at most ten nested operators.
pub fn expressions_are_shallow()
    ensures values { (words : List Word) (p : ℕ) (o : Others) → Quietly words (whole_expr p o).form Shallow }
    ensures conditions { (words : List Word) (p : ℕ) → Quietly words (condition p).form Shallow }
{}
