//! What the definitions promise, as clauses of functions that do nothing.

ghost use Rattle.std.specs.Prelude.{◌≡◌, ◌≤◌, ◌<ℤ◌, ℕ, ℤ, pos, List};
ghost use Rattle.ipet_rows.specs.Programs.{Program, IsProgram};
ghost use Rattle.ipet_rows.specs.declared.verdict.Verdict.TheVariants.{Holds};
ghost use Rattle.ipet_rows.specs.Duals.{IsDual, dual_sum};
ghost use Rattle.ipet_rows.specs.Verdicts.{verdict, floor_of};
ghost use Rattle.ipet_rows.specs.Bounds.{BoundsAll};

/// Where the verdict is that the multipliers hold, they are a dual point of this value, and no point
/// that meets the rows is worth more, rounded down.
#[tactic(auto, using(crate::specs::VerdictLaws::holds_dual, crate::specs::VerdictLaws::holds_bounds))]
pub fn verdicts_bound_each_point()
    ensures dual { (p : Program) (scale : ℤ) (y : List ℤ) (bound v : ℕ) → pos 0 <ℤ scale
        → verdict p scale y bound ≡ Holds v → IsDual p scale y × (v ≡ floor_of (dual_sum p y) scale) × (v ≤ bound) }
    ensures bounds { (p : Program) (scale : ℤ) (y : List ℤ) (bound v : ℕ) → IsProgram p → pos 0 <ℤ scale
        → verdict p scale y bound ≡ Holds v → BoundsAll p v bound }
{}
