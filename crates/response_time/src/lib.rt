//! Response times of periodic tasks under fixed priorities with preemption.
//!
//! `respond` gives for each task the least solution of its equation of Joseph and Pandya (1986), or
//! tells the first task that has none up to its deadline. Beside it stands what a schedule is, by
//! releases and units of work, and the law that no schedule keeps a job longer than that time.
#![tactic(auto)]

// Why there are no response times.
mod fault;

// The equation, and its least solution.
mod equation;
mod least;
mod shares;

// What others call.
mod answers;
mod laws;
mod worked;

pub use answers::respond;
pub use fault::RespondFault;
pub use laws::{
    a_job_may_be_released, a_task_set_has_one_answer, allowed_events_are_schedules,
    every_job_finishes_in_its_response_time, response_times_are_reached, the_highest_priority_runs,
    the_processor_idles_without_work, time_goes_on,
};
pub use worked::{
    a_job_is_pending_until_its_work_is_done, releases_are_a_period_apart,
    the_higher_and_the_earlier_run_first, three_tasks_have_these_times,
    what_is_left_may_be_too_little,
};
