//! Outcomes of a unit, worked out apart from the definitions.

ghost use Rattle.std.specs.Prelude.{◌≡◌, ◌+◌, [], ◌∷◌, Some, None};
ghost use Rattle.alf_ops.specs.declared.history.RunFault.TheVariants.{Divide};
ghost use Rattle.alf_ops.specs.declared.history.Value.TheVariants.{Int, Ptr};
ghost use Rattle.alf_runs.specs.Outcomes as runs;
ghost use Rattle.c_meaning.specs.Programs.{Ended, Stopped, Unfinished};
ghost use Rattle.lowering_simulation.specs.Outcomes.{embedded_outcome};

/// What is returned and what globals hold last are those of the unit, and so is its fault; where turns are used
/// up there is no outcome.
pub fn outcomes_go_with_their_objects()
    ensures ended { embedded_outcome (λ o. o + 3) (Ended (Some (Int 32 7)) (None ∷ Some (Ptr 1 4) ∷ []))
        ≡ Some (runs.Ended (record { returned = Some (Int 32 7); globals = None ∷ Some (Ptr 4 4) ∷ [] })) }
    ensures stopped { embedded_outcome (λ o. o) (Stopped Divide) ≡ Some (runs.Faulted Divide) }
    ensures unfinished { embedded_outcome (λ o. o) Unfinished ≡ None }
{}
