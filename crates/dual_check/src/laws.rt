//! What a verdict promises of runs, as a clause of a function that does nothing.

ghost use Rattle.std.specs.Prelude.{◌≤◌, ℕ, Bool, List, ◌∷◌, reverse};
ghost use Rattle.domain_core.specs.Outlines.{Outlined, IsOutline, shape_of};
ghost use Rattle.flow_facts.specs.declared.fact.Fact.{Fact};
ghost use Rattle.ipet_rows.specs.Uses.{IsEnded, run_cost};
ghost use Rattle.ipet_rows.specs.Shaped.{FitOutline};
ghost use Rattle.ipet_rows.specs.Feasible.{MeetFacts};
ghost use Rattle.ipet_rows.specs.Bounds.{BoundsAll};
ghost use Rattle.dual_check.specs.Openings.{costs_of, system_of};

/// Where the verdict on multipliers is `Holds`, each run that meets the facts costs at most the number
/// that it tells, and so at most the bound: where the facts fit the outline, and there is an alarm for
/// the run's fault if it has one.
pub fn verdicts_bound_each_run()
    ensures { (o : Outlined) → IsOutline (shape_of o) → (facts : List Fact) (fault : Bool) (k : ℕ) (past : List ℕ)
        → IsEnded (shape_of o) facts fault (k ∷ past)
        → FitOutline (shape_of o) facts → MeetFacts (shape_of o) (reverse (k ∷ past)) facts → (v bound : ℕ)
        → BoundsAll (system_of o facts).program v bound
        → (run_cost (costs_of o) (k ∷ past) ≤ v) × (v ≤ bound) }
{}
