//! Sequences of jobs, worked out by hand.

ghost use Rattle.job_rules.specs.Worked.{ThreeJobs, NoSecondJob};

/// A program that changes a global and puts it back has a sequence of three jobs with three inputs, and one that leaves
/// it changed has no job after its first.
pub fn jobs_go_on_where_globals_are_put_back()
    ensures three { ThreeJobs }
    ensures none { NoSecondJob }
{}
