//! What terms have at a place.

ghost use Rattle.std.specs.Prelude.{◌≡◌};
ghost use Rattle.ipet_rows.specs.Sums.{coefficient, IsAscending};

use whole_numbers::Whole;

/// What the terms have at the place. Takes time linear in the terms before it.
#[tactic(auto, using(ipet_rows::specs::DualRowLaws::found_here, ipet_rows::specs::DualRowLaws::found_later, crate::specs::TermLaws::nothing_before))]
pub fn number_in(terms: &[(u32, Whole)], place: u32) -> Whole
    requires { IsAscending terms.now }
    ensures { result ≡ coefficient terms.now place }
{
    let mut rest = terms;
    while let Some((term, others)) = rest.split_first() {
        if term.0 == place {
            return term.1;
        }
        if place < term.0 {
            return Whole::of(0);
        }
        rest = others;
    }
    Whole::of(0)
}
