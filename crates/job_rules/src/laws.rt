//! What the definitions promise, as clauses of functions that do nothing.

ghost use Rattle.job_rules.specs.JobLaws.{EachJobStartsInside, AnyInputsComeNext, LeftAloneComesNext};
ghost use Rattle.job_rules.specs.JobLaws.{RunsThatEndLeave, LeavesAndEnds, OneJobIsARun};

/// Each job of a sequence starts as a run from inputs inside the ranges does: what is true of each such run is
/// true of each job.
pub fn jobs_start_inside()
    ensures { EachJobStartsInside }
{}

/// Where each run leaves what a start holds, a sequence of jobs goes on after each job that ends, with any numbers
/// inside the ranges in the ranged cells.
pub fn any_inputs_come_next()
    ensures { AnyInputsComeNext }
{}

/// Among these there are numbers with which the next job starts with the memory exactly as it was left.
pub fn memory_left_alone_comes_next()
    ensures { LeftAloneComesNext }
{}

/// A run that ends leaves one memory, and a run that leaves one ends.
pub fn runs_that_end_leave_memories()
    ensures leave { RunsThatEndLeave }
    ensures end { LeavesAndEnds }
{}

/// A sequence of one job is a run from a start inside the ranges that ends.
pub fn one_job_is_a_run()
    ensures { OneJobIsARun }
{}
