//! Schedules and response times, worked out apart from the definitions.

ghost use Rattle.std.specs.Prelude.{◌≡◌, [], ◌∷◌, ◌++◌, None, Some};
ghost use Rattle.response_time.specs.Responses.{interference, demand, AreResponses, IsFirstLate};
ghost use Rattle.response_time.specs.Schedules.{Release, Run, Idle, Schedule, IsStep};
ghost use Rattle.response_time.specs.Events.{GoesOn, units, released, done};
ghost use Rattle.response_time.specs.Shares.{IsCrowdedOut};
ghost use Rattle.response_time.specs.Worked.{numbered, due_at, three, nine, two, later_first, near_full, least};

/// A job of the lowest priority that began first is interrupted by each higher one. After nine units it
/// has one left, and after ten it is pending no more.
pub fn a_job_is_pending_until_its_work_is_done()
    ensures nine { Schedule three nine
        (record {
          time = 9;
          pending = record { task = 2; release = 0; left = 1 } ∷ [];
          last = Some 2 ∷ Some 1 ∷ Some 0 ∷ [];
        }) }
    ensures ten { Schedule three (nine ++ Run 2 ∷ [])
        (record { time = 10; pending = []; last = Some 2 ∷ Some 1 ∷ Some 0 ∷ [] }) }
    ensures units { units nine ≡ 9 }
    ensures released { released 2 nine ≡ 4 }
    ensures done { done 2 nine ≡ 3 }
{}

/// A task may be released again a period later, and not before.
pub fn releases_are_a_period_apart()
    ensures again { Schedule two (Release 0 1 ∷ Run 0 ∷ Release 1 1 ∷ Run 1 ∷ Release 0 1 ∷ [])
        (record { time = 2; pending = record { task = 0; release = 2; left = 1 } ∷ []; last = Some 2 ∷ Some 1 ∷ [] }) }
    ensures too_soon { GoesOn two (Release 0 1 ∷ Run 0 ∷ []) (Release 0 1) → ⊥ }
    ensures too_much { GoesOn two [] (Release 0 2) → ⊥ }
    ensures no_work { GoesOn two [] (Release 0 0) → ⊥ }
{}

/// Where two jobs are released at one moment, the one of higher priority runs. The earlier job of a task runs first.
pub fn the_higher_and_the_earlier_run_first()
    ensures higher { Schedule two (Release 1 1 ∷ Release 0 1 ∷ Run 0 ∷ [])
        (record { time = 1; pending = record { task = 1; release = 0; left = 1 } ∷ []; last = Some 0 ∷ Some 0 ∷ [] }) }
    ensures lower { GoesOn two (Release 1 1 ∷ Release 0 1 ∷ []) (Run 1) → ⊥ }
    ensures idle { GoesOn two (Release 1 1 ∷ []) Idle → ⊥ }
    ensures none { GoesOn two (Release 1 1 ∷ []) (Run 0) → ⊥ }
    ensures earlier { IsStep two later_first (Run 0)
        (record { time = 3; pending = record { task = 0; release = 2; left = 1 } ∷ []; last = Some 2 ∷ None ∷ [] }) }
    ensures later { IsStep two later_first (Run 0)
        (record { time = 3; pending = record { task = 0; release = 0; left = 1 } ∷ []; last = Some 2 ∷ None ∷ [] })
        → ⊥ }
{}

/// In 797 units the first of three tasks brings two jobs to the second, and no lower one brings any. The
/// times are 133, 797 and 1370. The third is in time where it is due then, and late a unit earlier.
pub fn three_tasks_have_these_times()
    ensures twice { interference 2 797 (numbered 133 400 400 1) ≡ 266 }
    ensures whole { interference 3 800 (numbered 133 400 400 1) ≡ 266 }
    ensures begun { interference 3 801 (numbered 133 400 400 1) ≡ 399 }
    ensures lower { interference 2 797 (numbered 307 3000 3000 3) ≡ 0 }
    ensures itself { interference 2 797 (numbered 531 2000 1500 2) ≡ 0 }
    ensures demand { demand three (numbered 307 3000 3000 3) 971 ≡ 1237 }
    ensures times { AreResponses three (133 ∷ 797 ∷ 1370 ∷ []) }
    ensures in_time { AreResponses (due_at 1370) (133 ∷ 797 ∷ 1370 ∷ []) }
    ensures late { IsFirstLate (due_at 1369) 2 }
{}

/// Where tasks of higher priority leave so little that one unit of work does not fit into the greatest
/// deadline, the task is late without a search.
pub fn what_is_left_may_be_too_little()
    ensures crowded { IsCrowdedOut near_full least }
    ensures late { IsFirstLate near_full 0 }
{}
