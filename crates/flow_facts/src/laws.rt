//! What the definitions promise, as clauses of functions that do nothing.

ghost use Rattle.std.specs.Prelude.{◌≡◌, ◌⊎◌, ◌↔◌, List, [], ◌∷◌, ℕ};
ghost use Rattle.domain_core.specs.Outlines.{Shape};
ghost use Rattle.flow_facts.specs.declared.fact.Fact.TheVariants.{Dead, Total};
ghost use Rattle.flow_facts.specs.Facts.{IsWider, Meets, places};
ghost use Rattle.flow_facts.specs.Writable.{IsBefore};

use crate::Fact;

/// The order of lines tells any two facts apart: so facts that ascend have one order, and no fact
/// stands among them twice.
pub fn lines_order_facts(f: Fact, g: Fact, h: Fact)
    ensures further { IsBefore f g → IsBefore g h → IsBefore f h }
    ensures once { IsBefore f f → ⊥ }
    ensures all { (f ≡ g) ⊎ IsBefore f g ⊎ IsBefore g f }
{
    // Read, so that their numbers are known to fit.
    let _ = (f, g, h);
}

/// A fact with a least count that is not greater and a greatest that is not less is met where the
/// narrower one is.
pub fn wider_facts_are_met(fact: Fact, wider: Fact)
    ensures { IsWider fact wider → (o : Shape) (trace : List ℕ) → Meets o trace fact → Meets o trace wider }
{
    // Read, so that their numbers are known to fit.
    let _ = (fact, wider);
}

/// A node that is dead stands nowhere in a trace: its total is 0 and no more. A total with one number
/// for both ends is the count itself.
pub fn dead_nodes_have_no_total()
    ensures none { (o : Shape) (trace : List ℕ) (n : ℕ) → Meets o trace (Dead n) ↔ Meets o trace (Total n 0 0) }
    ensures exact { (o : Shape) (trace : List ℕ) (n k : ℕ) → Meets o trace (Total n k k) ↔ (places n trace ≡ k) }
    ensures places { places 3 (3 ∷ 4 ∷ 3 ∷ []) ≡ 2 }
{}
