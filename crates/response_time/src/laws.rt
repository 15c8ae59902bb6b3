//! What is true of all response times and schedules, as clauses of functions that do nothing.

ghost use Rattle.response_time.specs.ResponseLaws.{TimesAreOne, LateIsOne, NeverBoth};
ghost use Rattle.response_time.specs.ScheduleLaws.{FinishInTime, AllFinishInTime, TimeGoesOn};
ghost use Rattle.response_time.specs.EventLaws.{JobsMayBeReleased, NoOtherIsReleased, TheHighestMayRun, NoOtherRuns};
ghost use Rattle.response_time.specs.EventLaws.{ItMayIdle, ItIdlesWithoutWork, AllowedEventsAreSchedules};
ghost use Rattle.response_time.specs.EventLaws.{WorkIsDoneInTime};
ghost use Rattle.response_time.specs.ReachLaws.{TimesAreReached, NoSmallerTimesHold, LateTasksMissTheirDeadlines};

/// A task set has one answer: one list of response times, or one first task that is late.
pub fn a_task_set_has_one_answer()
    ensures times { TimesAreOne }
    ensures late { LateIsOne }
    ensures apart { NeverBoth }
{}

/// A job of a task is pending in no schedule as long after its release as the least solution of the
/// task's equation, if this is up to the deadline; and so it is of all jobs at once, at the response
/// times of a task set. By the events alone: that long after a release all work of the task up to it is
/// done.
pub fn every_job_finishes_in_its_response_time()
    ensures one { FinishInTime }
    ensures all { AllFinishInTime }
    ensures work { WorkIsDoneInTime }
{}

/// After each schedule time can pass: the processor does a unit of work, or is idle where nothing is
/// pending. So no schedule ends because the rules forbid each event.
pub fn time_goes_on()
    ensures { TimeGoesOn }
{}

/// After each schedule a job of a task may be released, with any work up to the task's cost, exactly
/// where none of the task was released in the last period.
pub fn a_job_may_be_released()
    ensures may { JobsMayBeReleased }
    ensures only { NoOtherIsReleased }
{}

/// After each schedule a task may run exactly where it has work that is not done, and no task of higher
/// priority has.
pub fn the_highest_priority_runs()
    ensures may { TheHighestMayRun }
    ensures only { NoOtherRuns }
{}

/// After each schedule the processor may be idle exactly where no task has work that is not done.
pub fn the_processor_idles_without_work()
    ensures may { ItMayIdle }
    ensures only { ItIdlesWithoutWork }
{}

/// A list of events is a schedule of the tasks exactly where each event may come after those before it.
pub fn allowed_events_are_schedules()
    ensures { AllowedEventsAreSchedules }
{}

/// Where all tasks are released at once with their whole costs, and each again after each of its periods,
/// a job is pending at each time before the response time of its task, and at the deadline of a task that
/// is late. So no smaller times hold of all schedules, and no other verdict is right.
pub fn response_times_are_reached()
    ensures reached { TimesAreReached }
    ensures least { NoSmallerTimesHold }
    ensures late { LateTasksMissTheirDeadlines }
{}
