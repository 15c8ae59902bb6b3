//! What the definitions promise, as a function that does nothing.

ghost use Rattle.std.specs.Prelude.{ℕ, List, reverse};
ghost use Rattle.domain_core.specs.Outlines.{Outlined, IsOutline, shape_of};
ghost use Rattle.flow_facts.specs.declared.fact.Fact.{Fact};
ghost use Rattle.flow_facts.specs.Facts.{Meets};
ghost use Rattle.report_soundness.specs.BookTold.{Books, SumUp, Tells};

/// Each run that the books sum up meets each fact that they tell. Its nodes stand with the newest first.
#[tactic(auto, using(crate::specs::BookToldLaws::told_is_met))]
pub fn told_facts_are_met()
    ensures { (o : Outlined) → IsOutline (shape_of o) → (books : Books) (past : List ℕ) → SumUp o books past
        → (fact : Fact) → Tells o books fact → Meets (shape_of o) (reverse past) fact }
{}
