//! What the definitions promise, as clauses of functions that do nothing.

ghost use Rattle.std.specs.Prelude.{◌≡◌, ◌<◌, ℕ, ℤ, pos, Bool, List, ◌∷◌, ◌-ℤ◌, ◌==◌, Contains, length, reverse};
ghost use Rattle.domain_core.specs.Outlines.{Shape, IsOutline};
ghost use Rattle.domain_core.specs.Traces.{IsTrace};
ghost use Rattle.flow_facts.specs.declared.fact.Fact.{Fact};
ghost use Rattle.flow_facts.specs.Facts.{places};
ghost use Rattle.ipet_rows.specs.Sums.{IsAscending, coefficient, value_at};
ghost use Rattle.ipet_rows.specs.Programs.{IsWithin};
ghost use Rattle.ipet_rows.specs.Points.{MeetsAll, worth};
ghost use Rattle.ipet_rows.specs.Columns.{Column, columns_of};
ghost use Rattle.ipet_rows.specs.Weights.{one_if, leaves, enters};
ghost use Rattle.ipet_rows.specs.Rows.{terms_from, program_of};
ghost use Rattle.ipet_rows.specs.Uses.{IsEnded, steps_of, column_counts, run_cost};
ghost use Rattle.ipet_rows.specs.Shaped.{FitOutline};
ghost use Rattle.ipet_rows.specs.UseLaws.{AreApart, weigh};
ghost use Rattle.ipet_rows.specs.PathSparseLaws.{AreSome, weight_at};
ghost use Rattle.ipet_rows.specs.Feasible.{MeetFacts};

/// How often a run uses each column is a feasible point, and its value is the run's cost: where the
/// facts fit the outline, the run meets them, and there is an alarm for its fault if it has one.
pub fn column_counts_are_feasible()
    ensures feasible { (o : Shape) → IsOutline o → (facts : List Fact) (fault : Bool) (k : ℕ) (past : List ℕ)
        → IsEnded o facts fault (k ∷ past)
        → FitOutline o facts → MeetFacts o (reverse (k ∷ past)) facts → (costs : List ℕ)
        → MeetsAll (program_of o costs facts) (column_counts (columns_of o facts) (steps_of o fault (k ∷ past)))
        (pos 1) }
    ensures worth { (o : Shape) → IsOutline o → (facts : List Fact) (fault : Bool) (k : ℕ) (past : List ℕ)
        → IsEnded o facts fault (k ∷ past)
        → FitOutline o facts → MeetFacts o (reverse (k ∷ past)) facts → (costs : List ℕ)
        → worth (program_of o costs facts) (column_counts (columns_of o facts) (steps_of o fault (k ∷ past)))
        ≡ pos (run_cost costs (k ∷ past)) }
{}

/// The terms of a row, at how often a run uses each column, have as their value the sum of the
/// weights of what the run uses. No column stands twice.
pub fn rows_weigh_what_is_used()
    ensures value { (f : Column → ℤ) (columns steps : List Column) → AreApart columns
        → ((s : Column) → Contains steps s → Contains columns s)
        → value_at (terms_from f 0 columns) (column_counts columns steps) ≡ weigh f steps }
    ensures apart { (o : Shape) (facts : List Fact) → IsOutline o → AreApart (columns_of o facts) }
{}

/// A row's terms have each column's weight, by ascending column, and none that is 0.
pub fn terms_are_weights()
    ensures coefficient { (f : Column → ℤ) (columns : List Column) (e : ℕ)
        → coefficient (terms_from f 0 columns) e ≡ weight_at f columns e }
    ensures within { (f : Column → ℤ) (columns : List Column) → IsWithin (length columns) (terms_from f 0 columns) }
    ensures ascending { (f : Column → ℤ) (columns : List Column) → IsAscending (terms_from f 0 columns) }
    ensures some { (f : Column → ℤ) (columns : List Column) → AreSome (terms_from f 0 columns) }
{}

/// A run leaves each node as often as it is there, and enters it as often, but that it begins at
/// node 0.
pub fn runs_flow()
    ensures left { (o : Shape) (fault : Bool) (n k : ℕ) (past : List ℕ)
        → weigh (λ c. leaves n c) (steps_of o fault (k ∷ past)) ≡ pos (places n (k ∷ past)) }
    ensures flow { (o : Shape) (fault : Bool) (n k : ℕ) (past : List ℕ) → IsTrace o (k ∷ past) → n < length o.own
        → weigh (λ c. leaves n c -ℤ enters n c) (steps_of o fault (k ∷ past)) ≡ one_if (n == 0) }
{}
