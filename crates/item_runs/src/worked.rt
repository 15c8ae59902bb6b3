//! Stretches and runs of small items, worked out apart from the definitions.

ghost use Rattle.item_runs.specs.WorkedRuns.{CallsAndReturns, JumpsAhead};
ghost use Rattle.item_runs.specs.WorkedStretches.{StoresAndJumps, EntersCalls, StopsAtNothing, StopsAtPointer};
ghost use Rattle.item_runs.specs.WorkedStretches.{FirstPlace};

/// A result is stored where the call wants it, and a jump leads past what stands between.
pub fn small_items_run_as_worked_out()
    ensures calls { CallsAndReturns }
    ensures jumps { JumpsAhead }
{}

/// A stretch ends at a jump, at a call, or at a fault, and a label leads to its first place.
pub fn small_stretches_end_as_worked_out()
    ensures jumps { StoresAndJumps }
    ensures calls { EntersCalls }
    ensures nothing { StopsAtNothing }
    ensures pointer { StopsAtPointer }
    ensures first { FirstPlace }
{}
