//! The order of facts in a report.

ghost use Rattle.std.specs.Prelude.{◌≡◌};
ghost use Rattle.fact_text.specs.Grammar.{stands_before};

use flow_facts::Fact;

/// Whether the line of the first fact stands before that of the second.
#[tactic(auto, unfolding(crate::specs::Grammar::stands_before))]
pub fn comes_before(first: &Fact, second: &Fact) -> bool
    ensures { result ≡ stands_before first.now second.now }
{
    flow_facts::stands_before(first, second)
}
