//! The two choices of the rule.

ghost use Rattle.std.specs.Prelude.{◌≡◌, ◌<◌, ◌-◌, IfSome, length};
ghost use Rattle.simplex_rules.specs.Tableaus.{held_at};
ghost use Rattle.simplex_rules.specs.PivotRule.{leaving as leaving_of_all, leaving_with};
ghost use Rattle.simplex_tableau.specs.Choosing.{entering_answer};

use crate::choice::{chosen, from_place};
use crate::tableau::SparseTableau;
use whole_numbers::Whole;

impl SparseTableau {
    /// The row chosen so far, with one more.
    fn leaving_after(&self, row: usize, best: Option<usize>) -> Option<usize>
        requires row { row < length self.now.tableau.rows }
        requires best { IfSome best (λ k. k < length self.now.tableau.rows) }
        ensures value { result ≡ leaving_with self.now.tableau row best }
        ensures below { IfSome result (λ k. k < length self.now.tableau.rows) }
    {
        let negative = self.number_at(row, 0).below(Whole::of(0));
        match best {
            None => if negative { Some(row) } else { None },
            Some(held) => {
                if negative && self.basic(row) < self.basic(held) {
                    Some(row)
                } else {
                    Some(held)
                }
            }
        }
    }

    /// The row that leaves: of those with a right side below 0 the one of the least basic place.
    pub fn leaving(&self) -> Option<usize>
        ensures value { result ≡ leaving_of_all self.now.tableau }
        ensures below { IfSome result (λ k. k < length self.now.tableau.rows) }
    {
        let mut best = None;
        for row in 0..self.row_count() {
            best = self.leaving_after(row, best);
        }
        best
    }

    /// The place that enters: of those with a number below 0 in the row the one of least ratio, and of equal
    /// ones the first. `None` exactly where a product of the choice is wide.
    #[tactic(auto, using(crate::proofs::Choices::choice_is))]
    pub fn entering(&self, row: usize) -> Option<Option<u32>>
        requires { row < length self.now.tableau.rows }
        ensures { result
            ≡ entering_answer (held_at self.now.tableau.rows row).line self.now.tableau.objective (self.now.width - 2) }
    {
        let variables = from_place(self.held(row).line().terms(), 2);
        match chosen(variables, self.objective.terms()) {
            None => None,
            Some(None) => Some(None),
            Some(Some(best)) => Some(Some(best.place())),
        }
    }
}
