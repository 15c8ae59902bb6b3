//! What the definitions promise, as clauses of functions that do nothing.

ghost use Rattle.std.specs.Prelude.{◌≡◌, ◌<◌, ◌≤◌, ◌≤ℤ◌, ◌<ℤ◌, ◌*ℤ◌, ℕ, ℤ, List, None, false, length, pos};
ghost use Rattle.domain_core.specs.Outlines.{Outlined, IsOutline, shape_of};
ghost use Rattle.flow_facts.specs.declared.fact.Fact.{Fact};
ghost use Rattle.ipet_rows.specs.Sums.{total};
ghost use Rattle.ipet_rows.specs.Programs.{Program, IsProgram, row_at, cost_at};
ghost use Rattle.ipet_rows.specs.Points.{MeetsAll, worth};
ghost use Rattle.ipet_rows.specs.Firsts.{entry};
ghost use Rattle.ipet_rows.specs.Duals.{dual_sum};
ghost use Rattle.ipet_rows.specs.Verdicts.{floor_of, verdict};
ghost use Rattle.ipet_rows.specs.declared.verdict.Verdict.TheVariants.{Holds};
ghost use Rattle.dual_check.specs.Openings.{system_of};
ghost use Rattle.simplex_rules.specs.Tableaus.{Tableau, first_tableau, held_at, number_at};
ghost use Rattle.simplex_rules.specs.PivotRule.{Least, entering, handed_wide, opened, opening_at, variables_of};
ghost use Rattle.simplex_rules.specs.Promise.{Answers, basic_point, point_whole, handed};
ghost use Rattle.simplex_rules.specs.Runs.{IsRight};
ghost use Rattle.simplex_rules.specs.OpeningPlaces.{opening_places, OpensRows, started, ended};
ghost use Rattle.simplex_rules.specs.OutlineOpenings.{AreLimited};
ghost use Rattle.simplex_rules.specs.PlainOpening.{IsPlain};
ghost use Rattle.dual_check.specs.Small.{IsSmall};
ghost use Rattle.simplex_rules.specs.ReadOff.{IsReadOff, IsLeastPoint};

/// From rows and their openings, after any number of pivots: the multipliers handed out are a dual point,
/// and where no right side is negative the point read off meets the rows and has the dual value. That
/// value is at most the sum over the openings.
pub fn rule_answers()
    ensures answers { (p : Program) (os : List (ℕ × ℕ)) (n : ℕ) → IsProgram p → OpensRows p os
        → Answers p (ended p os n) }
    ensures point { (p : Program) (os : List (ℕ × ℕ)) (n : ℕ) (point : List (ℤ × ℤ)) → IsProgram p → OpensRows p os
        → (ended p os n).end ≡ Least → IsReadOff p (ended p os n).tableau point → IsLeastPoint p (ended p os n) point }
    ensures most { (p : Program) (os : List (ℕ × ℕ)) (n : ℕ) → IsProgram p → OpensRows p os
        → dual_sum p (handed p (ended p os n).tableau) ≤ℤ
        (total (length os) (λ i. pos (cost_at p.costs (opening_at os i).1) *ℤ (row_at p.rows (opening_at os i).0).right)
        *ℤ entry (ended p os n).tableau.objective 1) }
{}

/// No point that meets the rows is worth more than the point of a tableau that the rule comes to. Where
/// some point meets the rows, a row with a negative right side has a column that can enter.
pub fn points_of_rule()
    ensures right { (p : Program) (os : List (ℕ × ℕ)) → IsProgram p → OpensRows p os → IsRight p (started p os) }
    ensures greatest { (p : Program) (t : Tableau) (x : ℕ → ℤ) (w : ℤ) → IsProgram p → IsRight p t → pos 1 ≤ℤ w
        → MeetsAll p x w → (worth p x *ℤ point_whole t) ≤ℤ (worth p (basic_point t) *ℤ w) }
    ensures enters { (p : Program) (t : Tableau) (r : ℕ) (x : ℕ → ℤ) (w : ℤ) → IsProgram p → IsRight p t
        → r < length t.rows → number_at t r 0 <ℤ pos 0 → pos 1 ≤ℤ w → MeetsAll p x w
        → entering (held_at t.rows r).line t.objective (variables_of p) ≡ None → ⊥ }
{}

/// The openings of the program that an outline and facts make open it, where of each node some fact says
/// how often a run leaves it at most.
pub fn outlines_open()
    ensures { (o : Outlined) (facts : List Fact) → IsOutline (shape_of o) → AreLimited (length o.nodes) facts
        → OpensRows (system_of o facts).program (system_of o facts).openings }
{}

/// What a run hands out is not wide for the test of multipliers, where what the opening hands out is not;
/// and the test answers `Holds` for each bound that the dual value, rounded down, does not pass.
pub fn handed_duals_hold()
    ensures { (p : Program) (os : List (ℕ × ℕ)) (n bound : ℕ) → IsProgram p → OpensRows p os
        → handed_wide p (started p os) ≡ false
        → floor_of (dual_sum p (handed p (ended p os n).tableau)) (entry (ended p os n).tableau.objective 1) ≤ bound
        → verdict p (entry (ended p os n).tableau.objective 1) (handed p (ended p os n).tableau) bound
        ≡ Holds (floor_of (dual_sum p (handed p (ended p os n).tableau)) (entry (ended p os n).tableau.objective 1)) }
{}

/// The opening divides no line: its rows stay as they are, and each other line is freed of the openings'
/// places by them. Where costs, coefficients, right sides and the number of rows have about 32 bits, the
/// test of what it hands out meets no wide number.
pub fn opening_fits()
    ensures plain { (p : Program) (os : List (ℕ × ℕ)) (m : ℕ) → IsProgram p → OpensRows p os
        → m ≤ length (opening_places p.rows os)
        → IsPlain p (opening_places p.rows os) m (opened (opening_places p.rows os) m (first_tableau p)) }
    ensures narrow { (p : Program) (os : List (ℕ × ℕ)) → IsProgram p → OpensRows p os → IsSmall p
        → handed_wide p (started p os) ≡ false }
{}
